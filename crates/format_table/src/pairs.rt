// The pairs of formats: which of them a table covers, and how many of its entries are for each.
ghost use Rattle.std.specs.Prelude.{◌≡◌, false, not, ◌&&◌, ◌||◌, ℕ, ◌/◌, ◌%◌, ◌<◌, eqb};
ghost use Rattle.std.specs.Simd.{first_chunks};
ghost use Rattle.sets.specs.Sets.{member};
ghost use Rattle.format.specs.Formats.{labels};
ghost use Rattle.format_table.specs.Covered.{lacks, applies};
ghost use Rattle.format_table.specs.Tables.{entries, some_unknown, all_pairs};
ghost use Rattle.format_table.specs.Loops.{SeenIn, FaultsIn};

use format::Format;
use sets::Set;

// Every pair of formats, of which pair k is from format k / 7 to format k % 7.
const ALL: u32 = Format::COUNT * Format::COUNT;

// The pairs that an entry is for, and those that two or more are for.
#[derive(Clone, Copy)]
pub struct Seen {
    pub once: Set,
    pub twice: Set,
}

// Some pair that is to be covered has no entry; some pair has two; some pair that is not to be covered has one. One turn over the pairs finds all
// three, each of which has a refusal of its own.
#[derive(Clone, Copy)]
pub struct Faults {
    pub missing: bool,
    pub twice: bool,
    pub uncovered: bool,
}

// The entries, each a source and a destination: a last odd number is none.
pub fn entries(pairs: &[u32]) -> &[[u32; 2]]
    ensures { result.now ≡ first_chunks 2 (entries pairs.now) pairs.now }
{
    let (entries, _) = pairs.as_chunks::<2>();
    entries
}

// The format dst lacks a label of src.
fn lacks_label(src: u32, dst: u32) -> bool
    ensures { result ≡ lacks dst (labels src) }
{
    Format::labels(src)
        .iter()
        .any(|label| !Format::has(dst, *label))
}

// Whether a table covers the pair.
#[tactic(auto, unfolding(crate::specs::Covered::applies))]
pub fn applies(src: u32, dst: u32) -> bool
    ensures { result ≡ applies src dst }
{
    // the pan of a mono signal, and the mono sum of a stereo one
    let panned = (src == Format::MONO) | ((src == Format::STEREO) & (dst == Format::MONO));
    !panned & lacks_label(src, dst)
}

// The pairs seen, and pair k once more. Requires a pair.
fn with_pair(seen: Seen, k: u32) -> Seen
    requires { k < all_pairs }
    ensures once { (j : ℕ) → member result.once j ≡ (member seen.once j || eqb j k) }
    ensures twice { (j : ℕ) → member result.twice j ≡ (member seen.twice j || (eqb j k && member seen.once j)) }
{
    let once = seen.once;
    let twice = seen.twice;
    if once.has(k) {
        return Seen {
            once: once.with(k),
            twice: twice.with(k),
        };
    }
    Seen {
        once: once.with(k),
        twice,
    }
}

// The pairs that the entries are for. Requires that each entry is of two formats.
#[tactic(auto, using(crate::proofs::Tables::entry_steps, crate::proofs::Faults::seen_none, crate::proofs::Faults::seen_more, crate::proofs::Exact::source_below, crate::proofs::Exact::destination_below))]
fn seen_in(pairs: &[u32]) -> Seen
    requires { some_unknown pairs.now (entries pairs.now) ≡ false }
    ensures { SeenIn pairs.now (entries pairs.now) result }
{
    let mut seen = Seen {
        once: Set::empty(),
        twice: Set::empty(),
    };
    for [src, dst] in entries(pairs) {
        seen = with_pair(seen, *src * Format::COUNT + *dst);
    }
    seen
}

// The faults so far, and those of pair k of those seen.
fn with_faults(faults: Faults, seen: Seen, k: u32) -> Faults
    ensures missing { result.missing ≡ ((applies (k / 7) (k % 7) && not (member seen.once k)) || faults.missing) }
    ensures twice { result.twice ≡ (member seen.twice k || faults.twice) }
    ensures uncovered { result.uncovered ≡ ((not (applies (k / 7) (k % 7)) && member seen.once k) || faults.uncovered) }
{
    let covered = applies(k / Format::COUNT, k % Format::COUNT);
    let once = seen.once;
    let twice = seen.twice;
    let entered = once.has(k);
    Faults {
        missing: (covered & !entered) | faults.missing,
        twice: twice.has(k) | faults.twice,
        uncovered: (!covered & entered) | faults.uncovered,
    }
}

// What is wrong with the pairs of the entries. Requires that each entry is of two formats.
// k is the pair itself, and no place of a list.
pub fn faults_in(pairs: &[u32]) -> Faults
    requires { some_unknown pairs.now (entries pairs.now) ≡ false }
    ensures { FaultsIn pairs.now all_pairs result }
{
    let seen = seen_in(pairs);
    let mut faults = Faults {
        missing: false,
        twice: false,
        uncovered: false,
    };
    for k in 0..ALL {
        faults = with_faults(faults, seen, k);
    }
    faults
}
