// Texts that are put into buffers.
ghost use Rattle.reports.specs.Lines.{Puts};

use statements::fault::Fault;

/// Puts a text at the front of a buffer, whose rest stays, and answers how long the text is. Refused if the buffer is too short, which
/// is then as it was.
pub fn put(buffer: &mut [u8], text: &[u8]) -> Result<usize, Fault>
    ensures { Puts text.now buffer.old buffer.new result }
{
    let length = text.len();
    if buffer.len() < length {
        return Err(Fault::Short);
    }
    buffer[..length].copy_from_slice(text);
    Ok(length)
}
