// What holds of a reader over all its calls.
ghost use Rattle.files.specs.Files.{ReadsInTurn};

/// Each turn of a reader, the call for a head and the load of its sheet, takes the next sheet of its file, or meets the first fault.
pub fn reader_reads()
    ensures { ReadsInTurn }
{}
