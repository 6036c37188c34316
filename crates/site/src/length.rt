// Rule 7, for the bytes of a field and for a site value.
ghost use Rattle.std.specs.Prelude.{◌≡◌};
ghost use Rattle.site.specs.Values.{items, one_value, items_of, length_permitted, item_count, count_rule};

use crate::{RecordKind, Rule, Site};

// How many bytes an item of a field has, and how few and how many items there may be.
#[derive(Clone, Copy)]
struct Items {
    width: usize,
    least: usize,
    most: usize,
}

impl Items {
    // Items of `width` bytes each, from `least` to `most` of them.
    fn of(width: usize, least: usize, most: usize) -> Items
        ensures { result ≡ items width least most }
    {
        Items { width, least, most }
    }

    fn one_value(width: usize) -> Items
        ensures { result ≡ one_value width }
    {
        Items::of(width, 1, 1)
    }
}

// A match and no constant array, which would be set up anew at each call.
#[tactic(auto, using(crate::proofs::MatchLaws::none_below, crate::proofs::LengthLaws::no_items_lem))]
#[inline(always)]
fn items_of(kind: RecordKind, tag: u8) -> Items
    ensures { result ≡ items_of kind tag }
{
    match tag {
        1 => Items::of(1, 1, 8),
        2 => Items::one_value(1),
        3 => Items::one_value(2),
        4 => Items::one_value(1),
        5 => Items::one_value(1),
        6 => Items::one_value(2),
        // a reserve has no entries
        7 => Items::of(kind.entry_width(), 0, 4),
        8 => Items::one_value(2),
        9 => Items::one_value(1),
        10 => Items::one_value(2),
        11 => Items::one_value(2),
        12 => Items::one_value(2),
        13 => Items::one_value(2),
        14 => Items::one_value(2),
        15 => Items::one_value(4),
        16 => Items::one_value(1),
        17 => Items::one_value(2),
        // no such field, not even one of no bytes
        _ => Items::of(1, 1, 0),
    }
}

#[tactic(auto, using(crate::proofs::LengthLaws::width_positive, crate::proofs::LengthLaws::longest, crate::proofs::LengthLaws::permitted_fewer, crate::proofs::LengthLaws::permitted_more, crate::proofs::LengthLaws::permitted_items))]
#[inline(always)]
pub fn length_permitted(kind: RecordKind, tag: u8, n: usize) -> bool
    ensures { result ≡ length_permitted kind tag n }
{
    let items = items_of(kind, tag);
    if n < items.width * items.least || items.width * items.most < n {
        return false;
    }
    // most fields are one item, and need no division
    n == items.width || n % items.width == 0
}

#[tactic(auto, unfolding(crate::specs::Values::item_count))]
#[inline(always)]
fn item_count(site: &Site, tag: u8) -> usize
    ensures { result ≡ item_count tag site.now }
{
    match tag {
        1 => usize::from(site.name.len),
        7 => usize::from(site.stand.count),
        _ => 1,
    }
}

#[tactic(auto, unfolding(crate::specs::Values::count_rule))]
#[inline(always)]
pub fn count_rule(site: &Site, tag: u8) -> Result<(), Rule>
    ensures { result ≡ count_rule tag site.now }
{
    let n = item_count(site, tag);
    let items = items_of(site.kind, tag);
    if n < items.least || items.most < n {
        return Err(Rule::BadLength);
    }
    Ok(())
}
