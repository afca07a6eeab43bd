// The bytes of a file, with the items of its lists in another order.
ghost use Rattle.std.specs.Prelude.{◌≡◌, ◌<◌, true, [], map, length, slice_index_or, IfOk, OnOk, OnErr};
ghost use Rattle.list_cuts.specs.Cuts.{IsOrder, picked, woven};
ghost use Rattle.list_cuts.specs.Spans.{text_of, between, stand_in_order, rearranged, all_rearranged};

use crate::spans::{ListSpans, Span};
use cs_base::Memory;
use std::alloc::Global;

// Whether the items stand one behind the other in a text of so many elements.
fn stand_in_order(size: usize, list: &[Span]) -> bool
    ensures { result ≡ stand_in_order 0 size list.now }
{
    let mut from = 0;
    for span in list {
        if from > span.begin || span.begin > span.end {
            return false;
        }
        from = span.end;
    }
    from <= size
}

// The bytes of an item.
fn item_of<'a>(bytes: &'a [u8], list: &[Span], place: usize) -> &'a [u8]
    requires in_order { stand_in_order 0 (length bytes.now) list.now ≡ true }
    requires within { place < length list.now }
    ensures { result.now ≡ slice_index_or (map (text_of bytes.now) list.now) place [] }
{
    let span = list[place];
    &bytes[span.begin..span.end]
}

// What stands behind an item, up to the next one.
fn gap_of<'a>(bytes: &'a [u8], list: &[Span], place: usize) -> &'a [u8]
    requires in_order { stand_in_order 0 (length bytes.now) list.now ≡ true }
    requires within { place < length list.now }
    ensures { result.now ≡ slice_index_or (between bytes.now list.now) place [] }
{
    if place + 1 < list.len() {
        &bytes[list[place].end..list[place + 1].begin]
    } else {
        &bytes[0..0]
    }
}

// The items in the new order, with what stands between them.
fn woven(alloc: Global, bytes: &[u8], list: &[Span], order: &[usize]) -> Result<Vec<u8>, Memory>
    requires in_order { stand_in_order 0 (length bytes.now) list.now ≡ true }
    requires alike { length list.now ≡ length order.now }
    requires order { IsOrder (length order.now) order.now }
    ensures { IfOk result (λ v. v.items ≡ woven (picked order.now (map (text_of bytes.now) list.now)) (between bytes.now list.now)) }
{
    let mut out = Vec::new(alloc);
    for place in 0..order.len() {
        let number = order[place] - 1;
        out.extend_from_slice(item_of(bytes, list, number))?;
        out.extend_from_slice(gap_of(bytes, list, place))?;
    }
    Ok(out)
}

/// Puts the items of a list into the new order, where they stand one behind the other in the bytes and are as many
/// as the order has numbers.
pub fn rearrange(
    alloc: Global,
    bytes: &mut [u8],
    list: &[Span],
    order: &[usize],
) -> Result<(), Memory>
    requires { IsOrder (length order.now) order.now }
    ensures answer { OnOk result (bytes.new ≡ rearranged order.now list.now bytes.old) }
    ensures unchanged { OnErr result (bytes.new ≡ bytes.old) }
{
    if list.len() != order.len() || !stand_in_order(bytes.len(), list) {
        return Ok(());
    }
    match list {
        [] => {}
        [first, ..] => {
            let text = woven(alloc, bytes, list, order)?;
            let end = first.begin + text.len();
            bytes[first.begin..end].copy_from_slice(&text);
        }
    }
    Ok(())
}

/// The bytes of a file with the items of its lists in the new order. The lists stand in the order of their
/// parentheses, and each item of one of them that holds another list holds it whole.
pub fn arrange(
    alloc: Global,
    bytes: &[u8],
    lists: &[ListSpans],
    order: &[usize],
) -> Result<Vec<u8>, Memory>
    requires { IsOrder (length order.now) order.now }
    ensures answer { IfOk result (λ v. v.items ≡ all_rearranged order.now lists.now bytes.now) }
{
    let mut out = Vec::from_slice(alloc, bytes)?;
    let mut left = lists.len();
    while left > 0 {
        left -= 1;
        rearrange(alloc, &mut out, lists[left].as_slice(), order)?;
    }
    Ok(out)
}
