// Sums of rows over the field of two elements, and the relation among rows. These functions are for the project's own crates: what they require,
// every caller proves.
#![tactic(auto)]

ghost use Rattle.std.specs.Prelude.{◌≡◌, ◌+◌, ◌*◌, ◌%◌, ◌<◌, map, length};
ghost use Rattle.gf2.specs.Degrees.{Degree};
ghost use Rattle.basis.specs.Rows.{sum_of, NoRelation, clear};
ghost use Rattle.relations.specs.Adding.{add_where};

// v where the lowest bit of x is 1, 0 where it is 0. No branch: the bits are data.
fn chosen(x: u64, v: u64) -> u64
    ensures { result ≡ x % 2 * v }
{
    v & (x & 1).wrapping_neg()
}

// The sum of the rows that the bits of x choose.
pub fn sum_of(x: u64, rows: &[u64]) -> u64
    ensures { result ≡ sum_of x rows.now }
{
    let mut sum: u64 = 0;
    let mut bits = x;
    for row in rows {
        sum ^= chosen(bits, *row);
        bits /= 2;
    }
    sum
}

// Clears column c of every row by v, and adds w to the sums that belong to the rows that change.
fn clear_with_sums(rows: &mut [u64], sums: &mut [u64], v: u64, w: u64, c: u32)
    requires { (c < 64) × (length rows.old ≡ length sums.old) }
    ensures { (rows.new ≡ map (clear c v) rows.old)
        × (sums.new ≡ add_where c w rows.old sums.old) }
{
    // By the index j, since of two slices that a zip lends by iter_mut a proof knows the lengths alone.
    for (j, row) in rows.iter_mut().enumerate() {
        let bits = *row >> c;
        *row ^= chosen(bits, v);
        sums[j] ^= chosen(bits, w);
    }
}

// The relation among the first k + 1 rows, of which the first k are independent: by elimination. Beside each row stands which of the
// rows before it were added to it, as bits.
pub fn relation(rows: [u64; 64], k: u32) -> u64
    requires { (k < 64) × NoRelation k rows × (NoRelation (k + 1) rows → ⊥) }
    ensures { Degree result k × (sum_of result rows ≡ 0) }
{
    let mut sums: [u64; 64] = [0; 64];
    relation_by(rows, k, &mut sums)
}

// The same, with the sums in a lent array: a caller that has one lends it, and takes less stack. What the array then holds is left open.
pub fn relation_by(rows: [u64; 64], k: u32, sums: &mut [u64; 64]) -> u64
    requires { (k < 64) × NoRelation k rows × (NoRelation (k + 1) rows → ⊥) }
    ensures { Degree result k × (sum_of result rows ≡ 0) }
{
    let mut work = rows;
    *sums = [0; 64];
    let last = k as usize;
    let n = last + 1;
    for i in 0..last {
        let v = work[i];
        let c = basis::lowest_one(v);
        let place: u64 = 1 << i;
        let w = place ^ sums[i];
        let next = i + 1;
        clear_with_sums(&mut work[next..n], &mut sums[next..n], v, w, c);
    }
    let place: u64 = 1 << last;
    place ^ sums[last]
}
