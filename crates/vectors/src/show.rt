// A reply's parts, on standard output.
use reply::Refusal;
use reply_lines::write_refused;
use std::io;

// The bytes in hexadecimal, two digits each; `-` for none.
pub(crate) fn bytes(rt: &impl Print, laid: &[u8]) -> io::Result<()> {
    if laid.is_empty() {
        rt.write_all(b"-")?;
    }
    for byte in laid {
        print!(rt; "{byte:02x}")?;
    }
    Ok(())
}

// The text in these bytes, its newlines written `|`.
pub(crate) fn lines(rt: &impl Print, laid: &[u8]) -> io::Result<()> {
    for line in laid.split_inclusive(|byte| *byte == b'\n') {
        rt.write_all(line.strip_suffix(b"\n").unwrap_or(line))?;
        rt.write_all(b"|")?;
    }
    Ok(())
}

// A refusal, `refused N at P`, without the newline behind it.
pub(crate) fn refused(rt: &impl Print, refusal: Refusal) -> io::Result<()> {
    let mut out = [0u8; 64];
    write_refused(refusal, &mut out);
    let line = out.split(|byte| *byte == b'\n').next().unwrap_or(&out);
    rt.write_all(line)
}
