ghost use Rattle.std.specs.Prelude.{◌≡◌, ◌<◌, ◌≤◌, ◌^◌};
ghost use Rattle.keep_members.specs.Mode as spec;

/// The bits of Go's os.FileMode for an `st_mode`, of which the lowest sixteen bits count. A kind that there isn't has
/// no bits of its own.
pub fn go_mode(unix: u32) -> u32
    ensures { result ≡ spec.go_mode unix }
{
    let kind = go_kind(unix / 4096 % 16);
    let set_user = moved(unix, 11, 23);
    let set_group = moved(unix, 10, 22);
    let sticky = moved(unix, 9, 20);
    kind + (set_user + set_group + sticky) + unix % 512
}

/// The `st_mode` for the bits of Go's os.FileMode: a regular file where none of them tells another kind.
pub fn unix_mode(go: u32) -> u32
    ensures { result ≡ spec.unix_mode go }
{
    let kind = unix_kind(go);
    let set_user = moved(go, 23, 11);
    let set_group = moved(go, 22, 10);
    let sticky = moved(go, 20, 9);
    kind * 4096 + (set_user + set_group + sticky) + go % 512
}

/// Go's bits of a kind.
fn go_kind(digit: u32) -> u32
    ensures value { result ≡ spec.go_kind digit }
    ensures bound { result ≤ 2 ^ 31 }
{
    match digit {
        4 => 0x8000_0000,
        10 => 0x0800_0000,
        2 => 0x0420_0000,
        6 => 0x0400_0000,
        1 => 0x0200_0000,
        12 => 0x0100_0000,
        _ => 0,
    }
}

/// The digit of the kind that Go's bits say.
fn unix_kind(go: u32) -> u32
    ensures value { result ≡ spec.unix_kind go }
    ensures bound { result < 16 }
{
    if has_bit(go, 31) {
        return 4;
    }
    if has_bit(go, 27) {
        return 10;
    }
    if has_bit(go, 26) {
        return if has_bit(go, 21) { 2 } else { 6 };
    }
    if has_bit(go, 25) {
        return 1;
    }
    if has_bit(go, 24) { 12 } else { 8 }
}

/// The bit of the second place, where the mode has that of the first.
fn moved(mode: u32, from: u32, to: u32) -> u32
    requires from_within { from < 32 }
    requires to_within { to < 24 }
    ensures value { result ≡ spec.moved mode from to }
    ensures bound { result ≤ 2 ^ to }
{
    if has_bit(mode, from) { 1 << to } else { 0 }
}

fn has_bit(mode: u32, place: u32) -> bool
    requires { place < 32 }
    ensures { result ≡ spec.has_bit mode place }
{
    (mode >> place) % 2 == 1
}
