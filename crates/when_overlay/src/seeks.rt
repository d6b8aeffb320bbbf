//! The rows of a relation after commits and layers, sought where they stand.
ghost use Rattle.std.specs.Prelude.{◌≡◌, ◌<◌, ◌++◌, ◌∷◌, List, [], ℕ, true, length, Option, Some, None, IfSome};
ghost use Rattle.std.specs.List.{find};
ghost use Rattle.std.specs.Option.{option_copied};
ghost use Rattle.hera_sets.specs.Rows.{is_past, IsAscending, holds};
ghost use Rattle.hera_sets.specs.Sets.{least_of};
ghost use Rattle.when_overlay.specs.Changed.{changed, rows_after};
ghost use Rattle.hera_meaning.specs.declared.scalars.Sign.TheVariants.{Plus};
ghost use Rattle.when_overlay.specs.Layered.{IsTip, path, layer_at};
ghost use Rattle.when_overlay.specs.Seeking.{named_in, named, met, first_of, passes, later, sign_in, sign_over, stands};

use crate::Layers;
use crate::marks::{SeenRow, ViewMark, put_in_near};
use crate::naming::newest_naming;
use crate::signs::{sign_in, sign_of};
use crate::soughts::{Sought, pages_near, set_near};
use delta_atoms::Delta;
use hera_meaning::{RelId, Sign};
use hera_rows::{RowSet, Sorted, Spot};
use hera_sets::{is_below, is_same};
use rel_pages::{IndexedRel, Place};

/// A spot for who has none to tell.
const NOWHERE: Spot = Spot {
    block: usize::MAX,
    row: 0,
};

/// The lesser of two rows, where a row stands before none.
fn lesser<'s>(x: Option<&'s [u8]>, y: Option<&'s [u8]>) -> Option<&'s [u8]>
    ensures { option_copied result ≡ least_of (option_copied x.entry) (option_copied y.entry) }
{
    match (x, y) {
        (Some(r), Some(s)) => if is_below(s, r) { Some(s) } else { Some(r) },
        (None, _) => y,
        _ => x,
    }
}

/// The first row that is looked for and that a delta names with this sign.
fn part_above<'s>(delta: &'s Delta, rel: RelId, sign: Sign, sought: Sought<'_>) -> Option<&'s [u8]>
    ensures { option_copied result ≡ first_of (passes sought.entry) (named_in rel.0 sign delta.now) }
{
    if delta.is_fail() {
        return None;
    }
    set_near(delta.part(rel, sign), sought, NOWHERE).row
}

/// The first row that is looked for and that one of the deltas names with this sign.
fn parts_above<'s>(
    deltas: &'s [Delta],
    rel: RelId,
    sign: Sign,
    sought: Sought<'_>,
) -> Option<&'s [u8]>
    ensures { option_copied result ≡ first_of (passes sought.entry) (named rel.0 sign deltas.now) }
{
    let mut first = None;
    for delta in deltas {
        first = lesser(first, part_above(delta, rel, sign, sought));
    }
    first
}

/// The first row that is looked for and that one of the layers from the tip down to the root names with this
/// sign.
fn layered_above<'s>(
    layers: &'s Layers,
    tip: Option<usize>,
    rel: RelId,
    sign: Sign,
    sought: Sought<'_>,
) -> Option<&'s [u8]>
    requires { IsTip layers.now.layers tip }
    ensures { option_copied result ≡ first_of (passes sought.entry) (named rel.0 sign (path layers.now.layers tip)) }
{
    let mut first = None;
    let mut at = tip;
    while let Some(i) = at {
        let layer = layers.layer(i);
        first = lesser(part_above(&layer.delta, rel, sign, sought), first);
        at = layer.parent;
    }
    first
}

/// The first row that is looked for and that a commit or a layer names with this sign.
pub(crate) fn named_above<'s>(
    commits: &'s [Delta],
    layers: &'s Layers,
    tip: Option<usize>,
    rel: RelId,
    sign: Sign,
    sought: Sought<'_>,
) -> Option<&'s [u8]>
    requires { IsTip layers.now.layers tip }
    ensures { option_copied result ≡ first_of (passes sought.entry) (named rel.0 sign (commits.now ++ path layers.now.layers tip)) }
{
    lesser(
        parts_above(commits, rel, sign, sought),
        layered_above(layers, tip, rel, sign, sought),
    )
}

/// The first row that is looked for of those that some deltas put in. The last of them is looked at beside a spot first: the
/// first that it puts in, which stands behind that delta, and about where.
#[derive(Clone, Copy)]
struct PutIn<'s> {
    row: Option<&'s [u8]>,
    own: Option<&'s [u8]>,
    spot: Spot,
}

/// The first row that is looked for and that one of the commits puts in, of which this is the last.
fn put_in_by_last<'s>(
    commits: &'s [Delta],
    last: &'s Delta,
    below: &'s [Delta],
    rel: RelId,
    sought: Sought<'_>,
    spot: Spot,
) -> PutIn<'s>
    requires { commits.now ≡ below.now ++ last.now ∷ [] }
    ensures next { option_copied result.row ≡ first_of (passes sought.entry) (named rel.0 Plus commits.now) }
    ensures own { (q : List ℕ) → option_copied result.own ≡ Some q → sign_over rel.0 commits.now q ≡ Some Plus }
{
    let _ = commits;
    let near = put_in_near(last, rel, sought, spot);
    let rest = parts_above(below, rel, Sign::Plus, sought);
    PutIn {
        row: lesser(rest, near.row),
        own: near.row,
        spot: near.spot,
    }
}

/// The first row that is looked for and that one of the commits puts in.
fn put_in_by_commits<'s>(
    commits: &'s [Delta],
    rel: RelId,
    sought: Sought<'_>,
    spot: Spot,
) -> PutIn<'s>
    ensures next { option_copied result.row ≡ first_of (passes sought.entry) (named rel.0 Plus commits.now) }
    ensures own { (q : List ℕ) → option_copied result.own ≡ Some q → sign_over rel.0 commits.now q ≡ Some Plus }
{
    match commits.split_last() {
        Some((last, below)) => put_in_by_last(commits, last, below, rel, sought, spot),
        None => PutIn {
            row: None,
            own: None,
            spot,
        },
    }
}

/// The first row that is looked for and that this layer, one below it or a commit puts in.
fn put_in_up_to<'s>(
    commits: &'s [Delta],
    layers: &'s Layers,
    i: usize,
    rel: RelId,
    sought: Sought<'_>,
    spot: Spot,
) -> PutIn<'s>
    requires { i < length layers.now.layers }
    ensures next { option_copied result.row ≡ first_of (passes sought.entry) (named rel.0 Plus (commits.now ++ path layers.now.layers (Some i))) }
    ensures own { (q : List ℕ) → option_copied result.own ≡ Some q → sign_over rel.0 (commits.now ++ path layers.now.layers (Some i)) q ≡ Some Plus }
{
    let layer = layers.layer(i);
    let near = put_in_near(&layer.delta, rel, sought, spot);
    let rest = named_above(commits, layers, layer.parent, rel, Sign::Plus, sought);
    PutIn {
        row: lesser(rest, near.row),
        own: near.row,
        spot: near.spot,
    }
}

/// The first row that is looked for and that a commit or a layer puts in, where this layer is the newest, or no layer.
fn put_in_from<'s>(
    commits: &'s [Delta],
    layers: &'s Layers,
    tip: Option<usize>,
    rel: RelId,
    sought: Sought<'_>,
    spot: Spot,
) -> PutIn<'s>
    requires { IsTip layers.now.layers tip }
    ensures next { option_copied result.row ≡ first_of (passes sought.entry) (named rel.0 Plus (commits.now ++ path layers.now.layers tip)) }
    ensures own { (q : List ℕ) → option_copied result.own ≡ Some q → sign_over rel.0 (commits.now ++ path layers.now.layers tip) q ≡ Some Plus }
{
    match tip {
        Some(i) => put_in_up_to(commits, layers, i, rel, sought, spot),
        None => put_in_by_commits(commits, rel, sought, spot),
    }
}

/// The first row that is looked for and that a commit or a layer puts in. The newest layers that say nothing of the
/// relation are passed over.
fn put_in_above<'s>(
    commits: &'s [Delta],
    layers: &'s Layers,
    tip: Option<usize>,
    rel: RelId,
    sought: Sought<'_>,
    spot: Spot,
) -> PutIn<'s>
    requires { IsTip layers.now.layers tip }
    ensures next { option_copied result.row ≡ first_of (passes sought.entry) (named rel.0 Plus (commits.now ++ path layers.now.layers tip)) }
    ensures own { (q : List ℕ) → option_copied result.own ≡ Some q → sign_over rel.0 (commits.now ++ path layers.now.layers tip) q ≡ Some Plus }
{
    let newest = newest_naming(layers, tip, rel);
    put_in_from(commits, layers, newest, rel, sought, spot)
}

/// A row that was met below a layer or a commit, or none, and about where it stands in the pages; and of the delta right
/// below, the first row that is looked for and that it puts in, and about where that stands.
#[derive(Clone, Copy)]
struct MetBelow<'s> {
    row: Option<&'s [u8]>,
    place: Place,
    own: Option<&'s [u8]>,
    spot: Spot,
}

/// The first row that is looked for of those that stand in the pages or that a commit or a layer puts in.
fn met_near<'s>(
    pages: &IndexedRel<'s>,
    commits: &'s [Delta],
    layers: &'s Layers,
    tip: Option<usize>,
    rel: RelId,
    sought: Sought<'_>,
    mark: ViewMark,
) -> MetBelow<'s>
    requires { IsTip layers.now.layers tip }
    ensures next { option_copied result.row ≡ find (passes sought.entry) (met rel.0 pages.now (commits.now ++ path layers.now.layers tip)) }
    ensures own { (q : List ℕ) → option_copied result.own ≡ Some q → sign_over rel.0 (commits.now ++ path layers.now.layers tip) q ≡ Some Plus }
    ensures ordered { IsAscending pages.now }
{
    let near = pages_near(pages, sought, mark.pages);
    let added = put_in_above(commits, layers, tip, rel, sought, mark.below);
    MetBelow {
        row: lesser(near.row, added.row),
        place: near.place,
        own: added.own,
        spot: added.spot,
    }
}

/// Whether the row is there.
pub(crate) fn has<S: Sorted>(
    base: &S,
    commits: &[Delta],
    layers: &Layers,
    tip: Option<usize>,
    rel: RelId,
    row: &[u8],
) -> bool
    requires { IsTip layers.now.layers tip }
    ensures found { result ≡ holds (rows_after rel.0 (S.rows base.now) (commits.now ++ path layers.now.layers tip)) row.now }
    ensures ordered { IsAscending (rows_after rel.0 (S.rows base.now) (commits.now ++ path layers.now.layers tip)) }
{
    match sign_of(commits, layers, tip, rel, row) {
        Some(Sign::Plus) => true,
        Some(Sign::Minus) => false,
        None => base.has(row),
    }
}

/// Whether a row that was met is there: where a commit or a layer speaks of it, the last of these does not
/// take it out.
fn is_kept(commits: &[Delta], layers: &Layers, tip: Option<usize>, rel: RelId, row: &[u8]) -> bool
    requires { IsTip layers.now.layers tip }
    ensures { result ≡ stands (sign_over rel.0 (commits.now ++ path layers.now.layers tip) row.now) true }
{
    match sign_of(commits, layers, tip, rel, row) {
        Some(Sign::Minus) => false,
        Some(Sign::Plus) => true,
        None => true,
    }
}

/// Whether the row is the one that was found.
fn is_that(found: Option<&[u8]>, row: &[u8]) -> bool
    ensures { result ≡ true → option_copied found.entry ≡ Some row.now }
{
    match found {
        Some(one) => is_same(one, row),
        None => false,
    }
}

/// Whether the row that was met, if one was, is there. It is so where it is the one that is known to be put in:
/// then no delta is asked.
fn is_kept_of(
    commits: &[Delta],
    layers: &Layers,
    tip: Option<usize>,
    rel: RelId,
    row: Option<&[u8]>,
    put_in: Option<&[u8]>,
) -> bool
    requires tip { IsTip layers.now.layers tip }
    requires put_in { (q : List ℕ) → option_copied put_in ≡ Some q → sign_over rel.0 (commits.now ++ path layers.now.layers tip) q ≡ Some Plus }
    ensures { IfSome row.entry (λ row. result ≡ stands (sign_over rel.0 (commits.now ++ path layers.now.layers tip) row.now) true) }
{
    let Some(row) = row else {
        return true;
    };
    if is_that(put_in, row) {
        return true;
    }
    is_kept(commits, layers, tip, rel, row)
}

/// Whether a row that is put in right below a delta is there behind it: it is where that does not take it out.
fn is_left(newest: &Delta, rel: RelId, row: &[u8]) -> bool
    ensures { result ≡ stands (later (sign_in rel.0 newest.now row.now) (Some Plus)) true }
{
    match sign_in(newest, rel, row) {
        Some(Sign::Minus) => false,
        Some(Sign::Plus) => true,
        None => true,
    }
}

/// Whether the row that was met under this layer, if one was, is there. It is so where it is the one that is known to be put
/// in by it, and where it is the one known to be put in right below, it alone is asked.
fn is_kept_under(
    commits: &[Delta],
    layers: &Layers,
    i: usize,
    rel: RelId,
    row: Option<&[u8]>,
    own: Option<&[u8]>,
    below: Option<&[u8]>,
) -> bool
    requires tip { i < length layers.now.layers }
    requires put_in { (q : List ℕ) → option_copied own ≡ Some q → sign_over rel.0 (commits.now ++ path layers.now.layers (Some i)) q ≡ Some Plus }
    requires below { (q : List ℕ) → option_copied below ≡ Some q → IfSome (layer_at layers.now.layers i) (λ l. sign_over rel.0 (commits.now ++ path layers.now.layers (Some i)) q ≡ later (sign_in rel.0 l.delta q) (Some Plus)) }
    ensures { IfSome row.entry (λ row. result ≡ stands (sign_over rel.0 (commits.now ++ path layers.now.layers (Some i)) row.now) true) }
{
    let Some(row) = row else {
        return true;
    };
    if is_that(own, row) {
        return true;
    }
    if is_that(below, row) {
        return is_left(&layers.layer(i).delta, rel, row);
    }
    is_kept(commits, layers, Some(i), rel, row)
}

/// A row that was met, or none, and whether it is there.
#[derive(Clone, Copy)]
struct Met<'s> {
    found: SeenRow<'s>,
    kept: bool,
}

/// The first row that is looked for of those that stand in the pages, which are all that are met where there are neither
/// commits nor layers: it is there.
fn met_in_pages<'s>(
    pages: &IndexedRel<'s>,
    commits: &'s [Delta],
    layers: &'s Layers,
    rel: RelId,
    sought: Sought<'_>,
    mark: ViewMark,
) -> Met<'s>
    requires { commits.now ≡ [] }
    ensures next { option_copied result.found.row ≡ find (passes sought.entry) (met rel.0 pages.now (commits.now ++ path layers.now.layers None)) }
    ensures kept { IfSome result.found.row (λ row. result.kept ≡ stands (sign_over rel.0 (commits.now ++ path layers.now.layers None) row.now) true) }
    ensures ordered { IsAscending pages.now }
{
    let near = pages_near(pages, sought, mark.pages);
    let mark = ViewMark {
        pages: near.place,
        ..mark
    };
    let row = near.row;
    Met {
        found: SeenRow { row, mark },
        kept: true,
    }
}

/// The first row that is looked for of those that are met, where there are no layers and this commit is the last: one of
/// those that it puts in, which is there, or one met below it.
fn met_behind<'s>(
    pages: &IndexedRel<'s>,
    commits: &'s [Delta],
    last: &'s Delta,
    below: &'s [Delta],
    layers: &'s Layers,
    rel: RelId,
    sought: Sought<'_>,
    mark: ViewMark,
) -> Met<'s>
    requires { commits.now ≡ below.now ++ last.now ∷ [] }
    ensures next { option_copied result.found.row ≡ find (passes sought.entry) (met rel.0 pages.now (commits.now ++ path layers.now.layers None)) }
    ensures kept { IfSome result.found.row (λ row. result.kept ≡ stands (sign_over rel.0 (commits.now ++ path layers.now.layers None) row.now) true) }
    ensures ordered { IsAscending pages.now }
{
    let own = put_in_near(last, rel, sought, mark.put_in);
    let near = met_near(pages, below, layers, None, rel, sought, mark);
    let row = lesser(near.row, own.row);
    let mark = ViewMark {
        pages: near.place,
        put_in: own.spot,
        below: near.spot,
    };
    Met {
        found: SeenRow { row, mark },
        kept: is_kept_of(commits, layers, None, rel, row, own.row),
    }
}

/// The first row that is looked for of those that are met, where there are no layers.
fn met_without<'s>(
    pages: &IndexedRel<'s>,
    commits: &'s [Delta],
    layers: &'s Layers,
    rel: RelId,
    sought: Sought<'_>,
    mark: ViewMark,
) -> Met<'s>
    ensures next { option_copied result.found.row ≡ find (passes sought.entry) (met rel.0 pages.now (commits.now ++ path layers.now.layers None)) }
    ensures kept { IfSome result.found.row (λ row. result.kept ≡ stands (sign_over rel.0 (commits.now ++ path layers.now.layers None) row.now) true) }
    ensures ordered { IsAscending pages.now }
{
    match commits.split_last() {
        Some((last, below)) => {
            met_behind(pages, commits, last, below, layers, rel, sought, mark)
        }
        None => met_in_pages(pages, commits, layers, rel, sought, mark),
    }
}

/// The first row that is looked for of those that are met, where this layer is the newest: one of those that it
/// puts in, which is there, or one met below it.
fn met_under<'s>(
    pages: &IndexedRel<'s>,
    commits: &'s [Delta],
    layers: &'s Layers,
    i: usize,
    rel: RelId,
    sought: Sought<'_>,
    mark: ViewMark,
) -> Met<'s>
    requires { i < length layers.now.layers }
    ensures next { option_copied result.found.row ≡ find (passes sought.entry) (met rel.0 pages.now (commits.now ++ path layers.now.layers (Some i))) }
    ensures kept { IfSome result.found.row (λ row. result.kept ≡ stands (sign_over rel.0 (commits.now ++ path layers.now.layers (Some i)) row.now) true) }
    ensures ordered { IsAscending pages.now }
{
    let newest = layers.layer(i);
    let own = put_in_near(&newest.delta, rel, sought, mark.put_in);
    let near = met_near(pages, commits, layers, newest.parent, rel, sought, mark);
    let row = lesser(near.row, own.row);
    let mark = ViewMark {
        pages: near.place,
        put_in: own.spot,
        below: near.spot,
    };
    Met {
        found: SeenRow { row, mark },
        kept: is_kept_under(commits, layers, i, rel, row, own.row, near.own),
    }
}

/// The first row that is looked for of those that are met, and whether it is there.
fn met_next<'s>(
    pages: &IndexedRel<'s>,
    commits: &'s [Delta],
    layers: &'s Layers,
    tip: Option<usize>,
    rel: RelId,
    sought: Sought<'_>,
    mark: ViewMark,
) -> Met<'s>
    requires { IsTip layers.now.layers tip }
    ensures next { option_copied result.found.row ≡ find (passes sought.entry) (met rel.0 pages.now (commits.now ++ path layers.now.layers tip)) }
    ensures kept { IfSome result.found.row (λ row. result.kept ≡ stands (sign_over rel.0 (commits.now ++ path layers.now.layers tip) row.now) true) }
    ensures ordered { IsAscending pages.now }
{
    match tip {
        Some(i) => met_under(pages, commits, layers, i, rel, sought, mark),
        None => met_without(pages, commits, layers, rel, sought, mark),
    }
}

/// The first row that is looked for of those that are there, found among those that are met: what was met and taken
/// out again is passed over.
pub(crate) fn first_met<'s>(
    pages: &IndexedRel<'s>,
    commits: &'s [Delta],
    layers: &'s Layers,
    tip: Option<usize>,
    rel: RelId,
    sought: Sought<'_>,
    mark: ViewMark,
) -> SeenRow<'s>
    requires { IsTip layers.now.layers tip }
    ensures next { option_copied result.row ≡ find (passes sought.entry) (rows_after rel.0 pages.now (commits.now ++ path layers.now.layers tip)) }
    ensures ordered { IsAscending (rows_after rel.0 pages.now (commits.now ++ path layers.now.layers tip)) }
{
    let mut last = sought;
    let mut mark = mark;
    loop {
        let next = met_next(pages, commits, layers, tip, rel, last, mark);
        let Some(row) = next.found.row else {
            return next.found;
        };
        if next.kept {
            return next.found;
        }
        last = Sought::Past(Some(row));
        mark = next.found.mark;
    }
}

/// Whether there is none of the deltas.
fn are_none(deltas: &[Delta]) -> bool
    ensures { result ≡ true → deltas.now ≡ [] }
{
    deltas.is_empty()
}

/// Whether nothing stands in the pages.
fn is_bare(pages: &IndexedRel<'_>) -> bool
    ensures { result ≡ true → pages.now ≡ [] }
{
    pages.is_empty()
}

/// Whether nothing is below a layer with this parent.
fn is_lowest(commits: &[Delta], parent: Option<usize>) -> bool
    ensures commits { result ≡ true → commits.now ≡ [] }
    ensures parent { result ≡ true → parent ≡ None }
{
    commits.is_empty() && parent.is_none()
}

/// The delta of this layer, where none is below it.
fn lowest_delta<'s>(commits: &[Delta], layers: &'s Layers, i: usize) -> Option<&'s Delta>
    requires { i < length layers.now.layers }
    ensures { IfSome result (λ delta. commits.now ++ path layers.now.layers (Some i) ≡ delta.now ∷ []) }
{
    let layer = layers.layer(i);
    if is_lowest(commits, layer.parent) {
        return Some(&layer.delta);
    }
    None
}

/// The last commit, where none is below it.
fn first_commit<'s>(
    commits: &[Delta],
    last: &'s Delta,
    below: &[Delta],
    layers: &Layers,
) -> Option<&'s Delta>
    requires { commits.now ≡ below.now ++ last.now ∷ [] }
    ensures { IfSome result (λ delta. commits.now ++ path layers.now.layers None ≡ delta.now ∷ []) }
{
    let _ = commits;
    let _ = layers;
    if are_none(below) {
        return Some(last);
    }
    None
}

/// The commit, where it is the only one.
fn lone_commit<'s>(commits: &'s [Delta], layers: &Layers) -> Option<&'s Delta>
    ensures { IfSome result (λ delta. commits.now ++ path layers.now.layers None ≡ delta.now ∷ []) }
{
    match commits.split_last() {
        Some((last, below)) => first_commit(commits, last, below, layers),
        None => None,
    }
}

/// The delta of a layer or a commit, where it is the only one.
fn lone_delta<'s>(commits: &'s [Delta], layers: &'s Layers, tip: Option<usize>) -> Option<&'s Delta>
    requires { IsTip layers.now.layers tip }
    ensures { IfSome result (λ delta. commits.now ++ path layers.now.layers tip ≡ delta.now ∷ []) }
{
    match tip {
        Some(i) => lowest_delta(commits, layers, i),
        None => lone_commit(commits, layers),
    }
}

/// The rows that a delta puts in where there were none, if it is not `fail`.
fn put_in_first(delta: &Delta, rel: RelId) -> Option<&RowSet>
    ensures { IfSome result (λ rows. rows.now ≡ changed rel.0 [] delta.now) }
{
    if delta.is_fail() {
        return None;
    }
    Some(delta.part(rel, Sign::Plus))
}

/// The rows that a layer or a commit puts in, where these are all that are there: nothing stands in the pages, and no
/// other delta changes it.
pub(crate) fn put_in_alone<'s>(
    pages: &IndexedRel<'_>,
    commits: &'s [Delta],
    layers: &'s Layers,
    tip: Option<usize>,
    rel: RelId,
) -> Option<&'s RowSet>
    requires { IsTip layers.now.layers tip }
    ensures { IfSome result (λ rows. rows.now ≡ rows_after rel.0 pages.now (commits.now ++ path layers.now.layers tip)) }
{
    let delta = lone_delta(commits, layers, tip)?;
    let rows = put_in_first(delta, rel)?;
    if is_bare(pages) {
        return Some(rows);
    }
    None
}

/// The first row past the bound of a set, and about where it stands.
pub(crate) fn above_alone<'s>(rows: &'s RowSet, bound: Option<&[u8]>, mark: ViewMark) -> SeenRow<'s>
    ensures next { option_copied result.row ≡ find (is_past (option_copied bound.entry)) rows.now }
    ensures ordered { IsAscending rows.now }
{
    let own = rows.above_near(bound, mark.put_in);
    let mark = ViewMark {
        put_in: own.spot,
        ..mark
    };
    SeenRow { row: own.row, mark }
}

/// The first row that is looked for and that is there, and about where it stands: there it is looked for first.
pub(crate) fn above_near<'s>(
    pages: &IndexedRel<'s>,
    commits: &'s [Delta],
    layers: &'s Layers,
    tip: Option<usize>,
    rel: RelId,
    bound: Option<&[u8]>,
    mark: ViewMark,
) -> SeenRow<'s>
    requires { IsTip layers.now.layers tip }
    ensures next { option_copied result.row ≡ find (is_past (option_copied bound.entry)) (rows_after rel.0 pages.now (commits.now ++ path layers.now.layers tip)) }
    ensures ordered { IsAscending (rows_after rel.0 pages.now (commits.now ++ path layers.now.layers tip)) }
{
    match put_in_alone(pages, commits, layers, tip, rel) {
        Some(rows) => above_alone(rows, bound, mark),
        None => first_met(pages, commits, layers, tip, rel, Sought::Past(bound), mark),
    }
}
