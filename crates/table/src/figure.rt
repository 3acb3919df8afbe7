ghost use Rattle.std.specs.Prelude.{◌≡◌, ◌+◌, ◌-◌, ◌*◌, ◌&&◌, if◌then◌else◌, Some, None, nat_lt};
ghost use Rattle.std.specs.Char.{is_ascii_digit};
ghost use Rattle.table.specs.Text.{figure_below, figure_on};

/// The figure below 256 that the bytes write: digits without a zero before them, and no sign.
pub fn small_figure(s: &[u8]) -> Option<u8>
    ensures { result ≡ figure_below 256 s.now }
{
    match s {
        [] | [b'0', _, ..] => None,
        _ => digits(s),
    }
}

/// The number that digits write, while it stays below 256.
fn digits(s: &[u8]) -> Option<u8>
    ensures { result ≡ figure_on 256 0 s.now }
{
    s.iter().try_fold(0, |n, b| longer(n, *b))
}

/// The number with a digit more, while it stays below 256.
fn longer(n: u8, b: u8) -> Option<u8>
    ensures { result ≡ (if is_ascii_digit b && nat_lt (n * 10 + (b - 48)) 256 then Some (n * 10 + (b - 48)) else None) }
{
    if !b.is_ascii_digit() {
        return None;
    }
    n.checked_mul(10)?.checked_add(b - b'0')
}
