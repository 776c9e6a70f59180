//! Whether values are the ones that are kept.
ghost use Rattle.std.specs.Prelude.{◌≡◌, ◌↔◌, IsTrue};

use inc_value::Value;

/// Whether just these values are kept, in this order.
pub(crate) fn are_kept(kept: &[Value], values: &[Value]) -> bool
    ensures { IsTrue result ↔ (kept.now ≡ values.now) }
{
    if kept.len() != values.len() {
        return false;
    }
    for (kept, value) in kept.iter().zip(values) {
        if !kept.same(value) {
            return false;
        }
    }
    true
}
