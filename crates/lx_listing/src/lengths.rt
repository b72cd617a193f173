//! Tests for long texts of items.

use lx_scan::FlatItem;

// Bound on the bytes of all texts up to which they aren't summed. Each text has at most as many bytes as lie between the start of the first item and
// the end of the last. So pieces of short texts cost nothing. Below the bound, a block exceeds the caller's limit only if items share a text.
const SURELY_FEW: usize = 20 * 65_536;

// Returns the number of bytes of the items' texts in total.
fn text_bytes(items: &[FlatItem]) -> usize {
    let mut sum: usize = 0;
    for item in items {
        sum = sum.saturating_add(item.len());
    }
    sum
}

// Returns the number of file bytes between the start of the first item and the end of the last.
fn span_of(items: &[FlatItem]) -> usize {
    let (Some(first), Some(last)) = (items.first(), items.last()) else {
        return 0;
    };
    last.start()
        .saturating_add(last.len())
        .saturating_sub(first.start())
}

/// Returns true if the texts of a piece's items have more than `most` bytes in total. Items of one action have the same text, so the total can exceed
/// the bytes between the first and the last item.
pub(crate) fn are_long(items: &[FlatItem], most: usize) -> bool {
    let span = span_of(items);
    if span <= most && span.saturating_mul(items.len()) <= SURELY_FEW {
        return false;
    }
    text_bytes(items) > most
}
