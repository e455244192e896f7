// The journal's numbers: unsigned LEB128 (RULES J1 to J7, G10), read from a slice and written into a lent one.
// What the bytes mean is in specs/Leb.antt.
#![tactic(auto)]

ghost use Rattle.std.specs.Prelude.{◌≡◌, length, take};
ghost use Rattle.number.specs.Leb.{largest, longest, encode, number};
ghost use Rattle.number.specs.Put.{put, fitted};

// The largest number of the format.
pub const LARGEST: u64 = 18446744073709551615;

// The longest good number of the format, in bytes.
pub const LONGEST: usize = 10;

// How many bytes of `from` a good number can take.
fn reach(from: &[u8]) -> usize
    ensures { result ≡ length (take longest from.now) }
{
    from.len().min(LONGEST)
}

// The number at the front of `from`, and how many bytes it takes; none where it is malformed: cut off, too large, or longer than
// it need be. One of one or two bytes is read before any call of itself, and a longer one by a call of itself on the rest of the
// slice, as its value is the first group plus 128 times the value of the rest. No byte past the longest good number is looked
// at, so that the calls are at most nine deep, whatever the slice holds.
pub fn read_number(from: &[u8]) -> Option<(u64, usize)>
    ensures { result ≡ number largest from.now }
{
    if from.len() == 0 {
        return None;
    }
    let first = from[0] as u64;
    if first < 128 {
        return Some((first, 1));
    }
    if from.len() == 1 {
        return None;
    }
    let group = first - 128;
    let second = from[1] as u64;
    if second < 128 {
        // A last group of 0 adds nothing: the number is longer than it need be.
        if second == 0 {
            return None;
        }
        return Some((group + 128 * second, 2));
    }
    let end = reach(from);
    let (value, used) = read_number(&from[1..end])?;
    // What the first group leaves of the limit for the rest.
    if (LARGEST - group) / 128 < value {
        return None;
    }
    Some((group + 128 * value, used + 1))
}

// Writes `n` over the front of `out`, and says how many bytes it takes; the bytes after it keep their values. None where it has
// more bytes than the slice. The rest of the number is written first, so that nothing has changed where the slice turns out too
// short.
pub fn write_number(out: &mut [u8], n: u64) -> Option<usize>
    ensures answer { result ≡ fitted (encode n) out.old }
    ensures buffer { out.new ≡ put (encode n) out.old }
{
    if out.len() == 0 {
        return None;
    }
    if n < 128 {
        out[0] = n as u8;
        return Some(1);
    }
    let rest = write_number(&mut out[1..], n / 128)?;
    out[0] = (n % 128 + 128) as u8;
    Some(rest + 1)
}

// How many bytes `n` takes.
pub fn number_len(n: u64) -> usize
    ensures { result ≡ length (encode n) }
{
    if n < 128 { 1 } else { number_len(n / 128) + 1 }
}
