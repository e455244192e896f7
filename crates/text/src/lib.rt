// The lines of the reply (RULES P4 to P13, P23), written into a lent slice.
// What stands in them is in specs/Reply.antt, and a number's digits are in specs/Decimal.antt.
#![tactic(auto)]

ghost use Rattle.std.specs.Prelude.{◌≡◌, ◌+◌, ◌*◌, ◌≤◌, ◌++◌, length, drop};
ghost use Rattle.number.specs.Put.{put, fitted};
ghost use Rattle.text.specs.Decimal.{decimal, most_digits};
ghost use Rattle.text.specs.Reply.{field, last_fields, line, ending};

// The longest line of a record, in bytes: a buffer of this size is never too short.
pub const LONGEST_LINE: usize = 42;

// The longest last line, in bytes, likewise.
pub const LONGEST_END: usize = 67;

const SPACE: u8 = b' ';

const NEWLINE: u8 = b'\n';

// The letter of an answer that lowers.
const LOWERED: u8 = b'L';

// Copies `from` over the front of `to`, which has room for it, and says how many bytes that is.
fn copy(from: &[u8], to: &mut [u8]) -> usize
    requires { length from.now ≤ length to.old }
    ensures count { result ≡ length from.now }
    ensures buffer { to.new ≡ from.now ++ drop (length from.now) to.old }
{
    to[..from.len()].copy_from_slice(from);
    from.len()
}

// How many digits `n` has.
fn decimal_len(n: u64) -> usize
    ensures count { result ≡ length (decimal n) }
    ensures few { result ≤ most_digits }
{
    if 10 <= n { decimal_len(n / 10) + 1 } else { 1 }
}

// Writes the digits of `n` over the front of `out`, which has room for them: the last one after those of the rest.
fn write_decimal(out: &mut [u8], n: u64) -> usize
    requires { length (decimal n) ≤ length out.old }
    ensures count { result ≡ length (decimal n) }
    ensures buffer { out.new ≡ put (decimal n) out.old }
{
    if n < 10 {
        out[0] = n as u8 + b'0';
        return 1;
    }
    let at = write_decimal(out, n / 10);
    out[at] = (n % 10) as u8 + b'0';
    at + 1
}

// Writes `n` and the byte `mark` after it over the front of `out`, which has room for them.
fn write_field(out: &mut [u8], n: u64, mark: u8) -> usize
    requires { length (field n mark) ≤ length out.old }
    ensures count { result ≡ length (field n mark) }
    ensures buffer { out.new ≡ put (field n mark) out.old }
{
    let at = write_decimal(out, n);
    out[at] = mark;
    at + 1
}

// How many bytes the fields after the letter take.
fn last_len(letter: u8, value: u64, lost: u64) -> usize
    ensures count { result ≡ length (last_fields letter value lost) }
    ensures few { result ≤ 2 * most_digits + 2 }
{
    let size = decimal_len(value) + 1;
    if letter == LOWERED {
        size + decimal_len(lost) + 1
    } else {
        size
    }
}

// Writes the fields after the letter over the front of `out`, which has room for them: where it is an L, the marks lost follow the value.
fn write_last(out: &mut [u8], letter: u8, value: u64, lost: u64) -> usize
    requires { length (last_fields letter value lost) ≤ length out.old }
    ensures count { result ≡ length (last_fields letter value lost) }
    ensures buffer { out.new ≡ put (last_fields letter value lost) out.old }
{
    if letter != LOWERED {
        return write_field(out, value, NEWLINE);
    }
    let at = write_field(out, value, SPACE);
    at + write_field(&mut out[at..], lost, NEWLINE)
}

// Writes the line of a record over the front of `out`, and says how many bytes it has; the bytes after it keep their values.
// `lost`, how many marks were lost, stands in it where the letter is an L. None where it does not fit: its size is compared first,
// so that nothing has changed then.
pub fn write_line(
    out: &mut [u8],
    position: u32,
    code: u64,
    letter: u8,
    value: u8,
    lost: u8,
) -> Option<usize>
    ensures answer { result ≡ fitted (line position code letter value lost) out.old }
    ensures buffer { out.new ≡ put (line position code letter value lost) out.old }
    ensures short { length (line position code letter value lost) ≤ LONGEST_LINE }
{
    let position = position as u64;
    let value = value as u64;
    let lost = lost as u64;
    // With the digits and the last fields stand three spaces and the letter.
    let size = decimal_len(position) + decimal_len(code) + last_len(letter, value, lost) + 4;
    if out.len() < size {
        return None;
    }
    let at = write_field(out, position, SPACE);
    let at = at + write_field(&mut out[at..], code, SPACE);
    let at = at + copy(&[letter, SPACE], &mut out[at..]);
    let at = at + write_last(&mut out[at..], letter, value, lost);
    Some(at)
}

// Writes the last line over the front of `out`, as `write_line` does; `held` is how many handles are open.
pub fn write_end(out: &mut [u8], made: u64, gone: u64, held: u64) -> Option<usize>
    ensures answer { result ≡ fitted (ending made gone held) out.old }
    ensures buffer { out.new ≡ put (ending made gone held) out.old }
    ensures short { length (ending made gone held) ≤ LONGEST_END }
{
    // With the digits stand the word, three spaces and the newline.
    let size = decimal_len(made) + decimal_len(gone) + decimal_len(held) + 7;
    if out.len() < size {
        return None;
    }
    let at = copy(b"end ", out);
    let at = at + write_field(&mut out[at..], made, SPACE);
    let at = at + write_field(&mut out[at..], gone, SPACE);
    let at = at + write_field(&mut out[at..], held, NEWLINE);
    Some(at)
}
