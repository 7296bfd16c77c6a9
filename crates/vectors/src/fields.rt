// The words of a row, parted by single spaces, and what they stand for.
ghost use Rattle.std.specs.Prelude.{◌<◌, ◌≤◌, IfSome, length};

// What stands behind the first word.
pub(crate) fn rest(row: &[u8]) -> &[u8] {
    match row.iter().position(|byte| *byte == b' ') {
        Some(end) => &row[end + 1..],
        None => &[],
    }
}

// The number, below 2^64, that the first word gives in decimal; 0 where it is none.
pub(crate) fn number(row: &[u8]) -> u64 {
    let word = row.split(|byte| *byte == b' ').next().unwrap_or(row);
    words::number_within(word, usize::MAX).unwrap_or(0) as u64
}

// The value of a hexadecimal digit.
fn digit(byte: u8) -> Option<u8>
    ensures { IfSome result (λ value. value < 16) }
{
    match byte {
        b'0'..=b'9' => Some(byte - b'0'),
        b'a'..=b'f' => Some(byte - b'a' + 10),
        _ => None,
    }
}

// The byte that two digits give: none where the first is no digit, and 0 for the second where that is none.
fn two_digits(pair: &[u8]) -> Option<u8> {
    let [high, low] = pair else {
        return None;
    };
    Some(16 * digit(*high)? + digit(*low).unwrap_or(0))
}

// The bytes that the first word gives in hexadecimal, two digits each, as far as they fit; `-` is no byte.
pub(crate) fn bytes<'a>(row: &[u8], out: &'a mut [u8]) -> &'a [u8]
    ensures { length result.now ≤ length out.old }
{
    let mut given = row.chunks_exact(2).map_while(two_digits);
    for (n, place) in out.iter_mut().enumerate() {
        let Some(byte) = given.next() else {
            return &out[..n];
        };
        *place = byte;
    }
    out
}

// In a text `|` stands for a newline, `^` for a carriage return and `~` for a tab; any other byte for itself.
fn letter(byte: u8) -> u8 {
    match byte {
        b'|' => b'\n',
        b'^' => b'\r',
        b'~' => b'\t',
        _ => byte,
    }
}

// The text that words give, as far as it fits.
pub(crate) fn text<'a>(words: &[u8], out: &'a mut [u8]) -> &'a [u8]
    ensures { length result.now ≤ length out.old }
{
    for (byte, word) in out.iter_mut().zip(words) {
        *byte = letter(*word);
    }
    &out[..words.len().min(out.len())]
}

// The buffer's first bytes, as many as are wanted: at most all of them.
pub(crate) fn room(wanted: u64, buffer: &mut [u8]) -> &mut [u8]
    ensures { length result.now ≤ length buffer.old }
{
    let most = buffer.len() as u64;
    &mut buffer[..wanted.min(most) as usize]
}
