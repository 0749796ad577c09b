ghost use Rattle.std.specs.Prelude.{◌≡◌, ◌<◌, ◌++◌, length, OnOk, OnErr, ◌^◌};
ghost use Rattle.jupyter_frames.specs.Framing.{frame};

use byteorder::{BigEndian, ByteOrder};
use std::alloc::AllocError;

/// Adds a frame with this body, of 1 to 4,294,967,295 bytes, at the end. After an error nothing is added.
pub fn write_frame(body: &[u8], out: &mut Vec<u8>) -> Result<(), AllocError>
    requires some { 0 < length body.now }
    requires fits { length body.now < 2 ^ 32 }
    ensures ok { OnOk result (out.new.items ≡ out.old.items ++ frame body.now) }
    ensures err { OnErr result (out.new.items ≡ out.old.items) }
{
    let start = out.len();
    let mut head = [0u8; 4];
    BigEndian::write_u32(&mut head, body.len() as u32);
    out.extend_from_slice(&head)?;
    match out.extend_from_slice(body) {
        Ok(()) => Ok(()),
        Err(error) => {
            out.truncate(start);
            Err(error)
        }
    }
}
