ghost use Rattle.std.specs.Prelude.{◌≡◌, ◌++◌, codes, decimal, IfOk, string_bytes};
ghost use Rattle.reply_frames.specs.Frames as spec;

use plain_data::Text;
use std::alloc::{AllocError, Global};
use uuid::Uuid;

/// The kernel in its hyphenated lower-case text.
pub fn kernel_name(alloc: Global, kernel: u128) -> Result<String, AllocError>
    ensures { IfOk result (λ name. string_bytes name ≡ spec.kernel_name kernel) }
{
    let mut buffer = [0u8; 36];
    let uuid = Uuid::from_u128(kernel);
    let name = uuid.hyphenated().encode_lower(&mut buffer);
    String::from_str(alloc, name)
}

/// The id of the session's message with this running number.
pub fn message_id(alloc: Global, kernel: &str, running: u64) -> Result<Text, AllocError>
    ensures { IfOk result (λ id. id ≡ (kernel.now ++ codes "_") ++ decimal running) }
{
    Ok(Text::from_string(format!(in alloc; "{kernel}_{running}")?))
}
