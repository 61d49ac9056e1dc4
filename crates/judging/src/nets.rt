// What the ceder and the acquirer of a filing would have at the counted steps without the key's own power: loaded,
// plus what other records let them acquire, less what those let them cede. Both are counted from a base, so that none
// falls below 0. Each net is an array of its own, said to lie near the base: the two are moved one by one.
ghost use Rattle.std.specs.Prelude.{◌≡◌, ◌+◌, ◌≤◌, ◌&&◌, replicate, if◌then◌else◌, nat_le, nat_lt};
ghost use Rattle.tables.specs.Passing.{load_row};
ghost use Rattle.judging.specs.Nets.{base, Between, Moved, Applied, Based};

use tables::loads::LOADS;

// More than all records can take away.
pub const BASE: u32 = 16777216;

// What two actors have at each step, counted from the base.
#[derive(Clone, Copy)]
pub struct Nets {
    pub ceder: [u32; 50],
    pub acquirer: [u32; 50],
}

// A power at a step, where the step is in the span.
fn within(p: u16, from: u32, till: u32, s: u32) -> u32
    ensures { (result ≡ (if nat_le from s && nat_lt s till then p else 0)) × (result ≤ 65535) }
{
    if (from <= s) & (s < till) {
        return u32::from(p);
    }
    0
}

// A power where it is wanted, else 0.
fn only(on: bool, p: u32) -> u32
    ensures { (result ≡ (if on then p else 0)) × (result ≤ p) }
{
    if on { p } else { 0 }
}

// Puts the powers of a load, counted from the base, into a net.
fn put_load(net: &mut [u32; 50], row: &[u16; 50])
    ensures { Based row.now net.new }
{
    for (s, n) in net.iter_mut().enumerate() {
        *n = BASE + u32::from(row[s]);
    }
}

// Starts a net, which stands at the base, with the powers of a load that was found, or with none. The caller has just
// made the net: to set it to its base here would be done twice.
pub fn start_net(net: &mut [u32; 50], rows: &[[u16; 50]; 64], at: Option<u32>)
    requires { net.old ≡ replicate 50 base }
    ensures { Based (load_row rows.now at) net.new }
{
    if let Some(i) = at
        && i < LOADS
    {
        put_load(net, &rows[i as usize]);
    }
}

// A number with a power gained, or given.
fn moved(x: u32, gains: bool, p: u32) -> u32
    requires { (p ≤ 65535) × (65535 ≤ x) × (x ≤ 4294901760) }
    ensures { result + (if gains then 0 else p) ≡ x + (if gains then p else 0) }
{
    if gains { x + p } else { x - p }
}

// A net with a record's whole row gained, or given.
fn move_row(net: &mut [u32; 50], gains: bool, row: &[u16; 50])
    requires { Between net.old 65535 4294901760 }
    ensures { Moved net.old gains row.now net.new }
{
    for (s, n) in net.iter_mut().enumerate() {
        *n = moved(*n, gains, u32::from(row[s]));
    }
}

// A net with a record's powers gained, or given, at the steps of its span. Each step is looked at, so that many are
// moved at once.
fn apply_in_span(net: &mut [u32; 50], gains: bool, gives: bool, mark: [u8; 4], row: &[u16; 50])
    requires { Between net.old 65535 4294901760 }
    ensures { Applied net.old gains gives mark row.now 0 50 net.new }
{
    let from = u32::from(mark[1]);
    let till = u32::from(mark[2]);
    for (s, n) in net.iter_mut().enumerate() {
        let p = within(row[s], from, till, s as u32);
        let more = *n + only(gains, p);
        *n = more - only(gives, p);
    }
}

// Applies a record to a net: its powers are gained, or given. A record in force at all counted steps has its whole row
// gained or given; one that ends before them moves nothing there, and neither does one that both gains and gives: so
// there are two flags and no enum.
pub(crate) fn apply_record(
    net: &mut [u32; 50],
    gains: bool,
    gives: bool,
    mark: [u8; 4],
    row: &[u16; 50],
    first: u32,
    until: u32,
)
    requires { (until ≤ 50) × Between net.old 65535 4294901760 }
    ensures { Applied net.old gains gives mark row.now first until net.new }
{
    if gains == gives {
        return;
    }
    let from = u32::from(mark[1]);
    let till = u32::from(mark[2]);
    if till <= first {
        return;
    }
    if (from <= first) & (until <= till) {
        move_row(net, gains, row);
        return;
    }
    apply_in_span(net, gains, gives, mark, row)
}
