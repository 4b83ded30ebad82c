// Published converses and compositions, in the notation of the literature.

// The two texts of a letter, and of a converse, are told by their places: with names for them each line of the data would be four.

/// A letter of the literature and what it stands for: one or more of our relation words, parted by spaces.
pub struct Letter(pub &'static str, pub &'static str);

/// A letter of the literature and the letter of its converse.
pub struct Turned(pub &'static str, pub &'static str);

/// A row of a table of compositions: the entry in the row of r and the column of s is the composition of r, the relation from the
/// first item to the second, with s, the relation from the second to the third. The columns are in the order of the rows.
pub struct Entries {
    pub letter: &'static str,
    pub entries: &'static [&'static str],
}

/// A cardinal direction as two relations of the point algebra: the one along the axis from west to east, and the one along the axis
/// from south to north.
pub struct Direction {
    pub letter: &'static str,
    pub eastward: &'static str,
    pub northward: &'static str,
}

// The point algebra, after Vilain and Kautz, and van Beek.

/// The letters of the point algebra; B is the set of all three relations.
pub(crate) static POINT_LETTERS: [Letter; 4] = [
    Letter("<", "<"),
    Letter(">", ">"),
    Letter("=", "="),
    Letter("B", "= < >"),
];

/// The converses of the point algebra.
pub(crate) static POINT_CONVERSES: [Turned; 3] = [
    Turned("<", ">"),
    Turned(">", "<"),
    Turned("=", "="),
];

/// The compositions of the point algebra.
pub(crate) static POINT_COMPOSITIONS: [Entries; 3] = [
    Entries {
        letter: "<",
        entries: &["<", "B", "<"],
    },
    Entries {
        letter: ">",
        entries: &["B", ">", ">"],
    },
    Entries {
        letter: "=",
        entries: &["<", ">", "="],
    },
];

// The interval algebra, after Allen.

/// The letters in which the converses of the interval algebra are given: b is before.
pub(crate) static INTERVAL_LETTERS: [Letter; 13] = [
    Letter("b", "p"),
    Letter("bi", "pi"),
    Letter("o", "o"),
    Letter("oi", "oi"),
    Letter("m", "m"),
    Letter("mi", "mi"),
    Letter("d", "d"),
    Letter("di", "di"),
    Letter("s", "s"),
    Letter("si", "si"),
    Letter("f", "f"),
    Letter("fi", "fi"),
    Letter("eq", "eq"),
];

/// The converses of the interval algebra.
pub(crate) static INTERVAL_CONVERSES: [Turned; 13] = [
    Turned("b", "bi"),
    Turned("bi", "b"),
    Turned("o", "oi"),
    Turned("oi", "o"),
    Turned("m", "mi"),
    Turned("mi", "m"),
    Turned("d", "di"),
    Turned("di", "d"),
    Turned("si", "s"),
    Turned("s", "si"),
    Turned("f", "fi"),
    Turned("fi", "f"),
    Turned("eq", "eq"),
];

// The cardinal directions, after Frank, and Ligozat.

/// The letters of the cardinal directions.
pub(crate) static DIRECTION_LETTERS: [Letter; 9] = [
    Letter("EQ", "eq"),
    Letter("N", "n"),
    Letter("NE", "ne"),
    Letter("E", "e"),
    Letter("SE", "se"),
    Letter("S", "s"),
    Letter("SW", "sw"),
    Letter("W", "w"),
    Letter("NW", "nw"),
];

/// The converses of the cardinal directions.
pub(crate) static DIRECTION_CONVERSES: [Turned; 9] = [
    Turned("N", "S"),
    Turned("NW", "SE"),
    Turned("W", "E"),
    Turned("SW", "NE"),
    Turned("S", "N"),
    Turned("SE", "NW"),
    Turned("E", "W"),
    Turned("NE", "SW"),
    Turned("EQ", "EQ"),
];

/// The cardinal directions as pairs of relations of the point algebra. The composition of two directions has the directions whose two
/// parts are each in the composition of the parts.
pub(crate) static DIRECTIONS: [Direction; 9] = [
    Direction {
        letter: "EQ",
        eastward: "=",
        northward: "=",
    },
    Direction {
        letter: "N",
        eastward: "=",
        northward: ">",
    },
    Direction {
        letter: "NE",
        eastward: ">",
        northward: ">",
    },
    Direction {
        letter: "E",
        eastward: ">",
        northward: "=",
    },
    Direction {
        letter: "SE",
        eastward: ">",
        northward: "<",
    },
    Direction {
        letter: "S",
        eastward: "=",
        northward: "<",
    },
    Direction {
        letter: "SW",
        eastward: "<",
        northward: "<",
    },
    Direction {
        letter: "W",
        eastward: "<",
        northward: "=",
    },
    Direction {
        letter: "NW",
        eastward: "<",
        northward: ">",
    },
];
