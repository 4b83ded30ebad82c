// The transitivity table of the interval algebra.

use crate::published::{Entries, Letter};

/// The letters of Allen, 1983. Beside those of the thirteen relations: dur and con for three relations each, and no info for all.
pub(crate) static ALLEN_LETTERS: [Letter; 16] = [
    Letter("=", "eq"),
    Letter("<", "p"),
    Letter(">", "pi"),
    Letter("d", "d"),
    Letter("di", "di"),
    Letter("o", "o"),
    Letter("oi", "oi"),
    Letter("m", "m"),
    Letter("mi", "mi"),
    Letter("s", "s"),
    Letter("si", "si"),
    Letter("f", "f"),
    Letter("fi", "fi"),
    Letter("dur", "d s f"),
    Letter("con", "di si fi"),
    Letter("no info", "eq p pi m mi o oi s si d di f fi"),
];

/// The letter of Allen, 1983, for the identity, which his table leaves out: any relation composed with it, on either side, is itself.
pub(crate) static ALLEN_IDENTITY: &str = "=";

/// The transitivity table of Allen, 1983, for the twelve relations other than the identity. The letter of the column stands beside
/// each entry.
pub(crate) static ALLEN_COMPOSITIONS: [Entries; 12] = [
    Entries {
        letter: "<",
        entries: &[
            "<", // <
            "no info", // >
            "< o m d s", // d
            "<", // di
            "<", // o
            "< o m d s", // oi
            "<", // m
            "< o m d s", // mi
            "<", // s
            "<", // si
            "< o m d s", // f
            "<", // fi
        ],
    },
    Entries {
        letter: ">",
        entries: &[
            "no info", // <
            ">", // >
            "> oi mi d f", // d
            ">", // di
            "> oi mi d f", // o
            ">", // oi
            "> oi mi d f", // m
            ">", // mi
            "> oi mi d f", // s
            ">", // si
            ">", // f
            ">", // fi
        ],
    },
    Entries {
        letter: "d",
        entries: &[
            "<", // <
            ">", // >
            "d", // d
            "no info", // di
            "< o m d s", // o
            "> oi mi d f", // oi
            "<", // m
            ">", // mi
            "d", // s
            "> oi mi d f", // si
            "d", // f
            "< o m d s", // fi
        ],
    },
    Entries {
        letter: "di",
        entries: &[
            "< o m di fi", // <
            "> oi di mi si", // >
            "o oi dur con =", // d
            "di", // di
            "o di fi", // o
            "oi di si", // oi
            "o di fi", // m
            "oi di si", // mi
            "di fi o", // s
            "di", // si
            "di si oi", // f
            "di", // fi
        ],
    },
    Entries {
        letter: "o",
        entries: &[
            "<", // <
            "> oi di mi si", // >
            "o d s", // d
            "< o m di fi", // di
            "< o m", // o
            "o oi dur con =", // oi
            "<", // m
            "oi di si", // mi
            "o", // s
            "di fi o", // si
            "d s o", // f
            "< o m", // fi
        ],
    },
    Entries {
        letter: "oi",
        entries: &[
            "< o m di fi", // <
            ">", // >
            "oi d f", // d
            "> oi mi di si", // di
            "o oi dur con =", // o
            "> oi mi", // oi
            "o di fi", // m
            ">", // mi
            "oi d f", // s
            "oi > mi", // si
            "oi", // f
            "oi di si", // fi
        ],
    },
    Entries {
        letter: "m",
        entries: &[
            "<", // <
            "> oi mi di si", // >
            "o d s", // d
            "<", // di
            "<", // o
            "o d s", // oi
            "<", // m
            "f fi =", // mi
            "m", // s
            "m", // si
            "d s o", // f
            "<", // fi
        ],
    },
    Entries {
        letter: "mi",
        entries: &[
            "< o m di fi", // <
            ">", // >
            "oi d f", // d
            ">", // di
            "oi d f", // o
            ">", // oi
            "s si =", // m
            ">", // mi
            "d f oi", // s
            ">", // si
            "mi", // f
            "mi", // fi
        ],
    },
    Entries {
        letter: "s",
        entries: &[
            "<", // <
            ">", // >
            "d", // d
            "< o m di fi", // di
            "< o m", // o
            "oi d f", // oi
            "<", // m
            "mi", // mi
            "s", // s
            "s si =", // si
            "d", // f
            "< m o", // fi
        ],
    },
    Entries {
        letter: "si",
        entries: &[
            "< o m di fi", // <
            ">", // >
            "oi d f", // d
            "di", // di
            "o di fi", // o
            "oi", // oi
            "o di fi", // m
            "mi", // mi
            "s si =", // s
            "si", // si
            "oi", // f
            "di", // fi
        ],
    },
    Entries {
        letter: "f",
        entries: &[
            "<", // <
            ">", // >
            "d", // d
            "> oi mi di si", // di
            "o d s", // o
            "> oi mi", // oi
            "m", // m
            ">", // mi
            "d", // s
            "> oi mi", // si
            "f", // f
            "f fi =", // fi
        ],
    },
    Entries {
        letter: "fi",
        entries: &[
            "<", // <
            "> oi mi di si", // >
            "o d s", // d
            "di", // di
            "o", // o
            "oi di si", // oi
            "m", // m
            "si oi di", // mi
            "o", // s
            "di", // si
            "f fi =", // f
            "fi", // fi
        ],
    },
];
