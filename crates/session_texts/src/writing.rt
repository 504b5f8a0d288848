// The text of a message that was collected.
ghost use Rattle.std.specs.Prelude.{OnOk, string_bytes};
ghost use Rattle.session_texts.specs.Unsent.{IsDeliveryText};

use delivery_machine::Delivery;
use std::alloc::AllocError;
use wire_json::delivery_text;

/// Puts the text of a delivery in place of what `out` holds.
pub fn write_delivery(out: &mut String, delivery: &Delivery) -> Result<(), AllocError>
    ensures { OnOk result (IsDeliveryText delivery.now (string_bytes out.new)) }
{
    delivery_text(out, delivery.message.entry(), delivery.count)
}
