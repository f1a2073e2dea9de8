// Page marks joined, from the fields of a sheet. These functions are for the project's own crates: what they require, every caller proves.
#![tactic(auto)]

ghost use Rattle.std.specs.Prelude.{◌≡◌, ◌∷◌, ◌+◌, ◌*◌, ◌%◌, ◌≤◌, ◌<◌, ◌^◌, length};
ghost use Rattle.gf2.specs.Moduli.{polynomial, Proper};
ghost use Rattle.refusals.specs.Refusals.{longest};
ghost use Rattle.big_endian.specs.Numbers.{numbers_at};
ghost use Rattle.sheets.specs.Layout.{page_count, pages_for};
ghost use Rattle.sheets.specs.Inner.{filling};
ghost use Rattle.sheet_joining.specs.Joining.{looping, BitsOf, LanesJoined, RunJoined, LastJoined, WholeOf, PagesJoined};

use gf2::Modulus;

// Marks joined, and the bits that stand in any of their fields: all fields are below 2^k exactly where these bits are.
#[derive(Clone, Copy)]
pub struct Joined {
    pub mark: u64,
    pub bits: u64,
}

// Four lanes of marks joined, and the bits of all their fields.
#[derive(Clone, Copy)]
pub struct Lanes {
    pub a: u64,
    pub b: u64,
    pub c: u64,
    pub d: u64,
    pub bits: u64,
}

// One lane: n fields from a place on, behind f and behind the bits of the fields before, by the table of the shift by a page.
fn join_lane(shift: &[u64], fields: &[u8], from: usize, n: u64, f: u64, before: u64) -> Joined
    requires { (length shift.now ≡ 2048) × (from + 8 * n ≤ length fields.now) }
    ensures { (result.mark ≡ looping shift.now f (numbers_at from 8 n fields.now))
        × BitsOf (before ∷ numbers_at from 8 n fields.now) result.bits }
{
    let mut x = f;
    let mut bits = before;
    for i in 0..n {
        let g = big_endian::eight_at(fields, from + 8 * i as usize);
        x = shifts::join(shift, x, g);
        bits |= g;
    }
    Joined { mark: x, bits }
}

// Four lanes of q fields side by side, the first behind 1 and the others behind 0, which do not wait for each other.
fn join_lanes(shift: &[u64], fields: &[u8], q: u64) -> Lanes
    requires { (length shift.now ≡ 2048) × (32 * q ≤ length fields.now) }
    ensures { LanesJoined shift.now 0 q fields.now result }
{
    let lane = (8 * q) as usize;
    let mut a: u64 = 1;
    let mut b: u64 = 0;
    let mut c: u64 = 0;
    let mut d: u64 = 0;
    let mut bits: u64 = 0;
    for i in 0..q {
        let place = (8 * i) as usize;
        let e = big_endian::eight_at(fields, place);
        let f = big_endian::eight_at(fields, place + lane);
        let g = big_endian::eight_at(fields, place + lane + lane);
        let h = big_endian::eight_at(fields, place + lane + lane + lane);
        a = shifts::join(shift, a, e);
        b = shifts::join(shift, b, f);
        c = shifts::join(shift, c, g);
        d = shifts::join(shift, d, h);
        bits |= e | f | g | h;
    }
    Lanes { a, b, c, d, bits }
}

// The first n page marks of a sheet joined, each of a whole page. Many of them in four lanes, which cost a power of t and three products. A
// field that is not below 2^k shows in the bits. The mark then means nothing: a lane may reach 2^k too, and the products take its low bits.
fn join_run(fields: &[u8], p: Modulus, size: u64, n: u64) -> Joined
    requires { Proper p × (size ≤ 4096) × (n < 2 ^ 29) × (8 * n ≤ length fields.now) }
    ensures { RunJoined (polynomial p) p.degree (8 * size) (numbers_at 0 8 n fields.now) result }
{
    let mut shift = [0u64; 2048];
    shifts::fill(&mut shift, p, size);
    if n < 64 {
        return join_lane(&shift, fields, 0, n, 1, 0);
    }
    let q = n / 4;
    let x = join_lanes(&shift, fields, q);
    let t = gf2::power_of_t(p, 8 * size * q);
    let ab = table_lanes::times_plus(p, lookups::below(p, x.a), t, x.b);
    let abc = table_lanes::times_plus(p, lookups::below(p, ab), t, x.c);
    let abcd = table_lanes::times_plus(p, lookups::below(p, abc), t, x.d);
    let from = (32 * q) as usize;
    join_lane(&shift, fields, from, n - 4 * q, abcd, x.bits)
}

// The mark of a page of n bits joined behind others. A field that is not below 2^k shows in the bits.
fn join_last(p: Modulus, x: Joined, last: u64, n: u64) -> Joined
    requires { Proper p }
    ensures { LastJoined (polynomial p) p.degree x last n result }
{
    let f = lookups::below(p, x.mark);
    let g = lookups::below(p, last);
    Joined {
        mark: files::joined_residue(p, 1, f, g, n),
        bits: x.bits | last,
    }
}

// How many of the pages of a file of n bits count as whole ones: all where the last is whole or filled up, else all but the last.
fn whole_pages(count: u64, page: u64, n: u64, filled: bool) -> u64
    requires { (0 < page) × (page ≤ 32768) × (count < 2 ^ 29) × (count ≡ page_count page n) }
    ensures { WholeOf filled count page n result }
{
    if filled {
        return count;
    }
    if n == count * page {
        return count;
    }
    count - 1
}

// The marks of the pages of a file of n bits joined: the whole pages, then the last page by its own length, or as one page more where it is filled
// up.
pub fn pages_joined(
    fields: &[u8],
    p: Modulus,
    size: u64,
    n: u64,
    count: u64,
    filled: bool,
) -> Joined
    requires { Proper p × (16 ≤ size) × (size ≤ 4096) × (n ≤ longest) × (count ≡ pages_for size n) × (8 * count ≤ length fields.now) }
    ensures { PagesJoined (filling filled) (polynomial p) p.degree (8 * size) n (numbers_at 0 8 count fields.now) result }
{
    let page = 8 * size;
    let whole = whole_pages(count, page, n, filled);
    if whole == count {
        return join_run(fields, p, size, count);
    }
    let x = join_run(fields, p, size, whole);
    let left = n - whole * page;
    join_last(
        p,
        x,
        big_endian::eight_at(fields, (8 * whole) as usize),
        left,
    )
}
