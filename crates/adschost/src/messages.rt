// PDUs to flat numbers and back.
ghost use Rattle.std.specs.Prelude.{◌≡◌};
ghost use Rattle.per.specs.Written.{told};
ghost use Rattle.per.specs.Pdu.{read_pdu};
ghost use Rattle.per.specs.Writing.{write_pdu};
ghost use Rattle.pdu.specs.UplinkTable.{ground_c};
ghost use Rattle.pdu.specs.DownlinkTable.{air_c};
ghost use Rattle.host_numbers.specs.UplinkNumbers.{ground_at};
ghost use Rattle.host_numbers.specs.DownlinkNumbers.{air_at};
ghost use Rattle.adschost.specs.Flatness.{air_shown, ShowsAir, ground_shown, ShowsGround, number_of, length_of, WritesFlat};

use host_numbers::copy::{copy_into, put_items};
use host_numbers::downlink::{air_at, flat_air};
use host_numbers::places::{A_NUMBERS, G_NUMBERS};
use host_numbers::uplink::{flat_ground, ground_at};
use pdu::{decode_air, decode_ground, encode_air, encode_ground};
use refusals::Refusal;

// An aircraft PDU as 40 numbers and the 128 octets of its list.
pub fn adsc_read_air(octets: &[u8], numbers: &mut [u32], list: &mut [u8]) -> u8
    ensures { ShowsAir (air_shown (read_pdu air_c octets.now) numbers.old list.old) result numbers.new list.new }
{
    match decode_air(octets) {
        Ok(pdu) => {
            if numbers.len() < A_NUMBERS {
                return Refusal::NoRoom.number();
            }
            if list.len() < 128 {
                return Refusal::NoRoom.number();
            }
            copy_into(&flat_air(pdu.kind, pdu.list.count), numbers);
            put_items(&pdu.list.items, list);
            0
        }
        Err(refusal) => refusal.number(),
    }
}

// A ground PDU as numbers.
pub fn adsc_read_ground(octets: &[u8], numbers: &mut [u32]) -> u8
    ensures { ShowsGround (ground_shown (read_pdu ground_c octets.now) numbers.old) result numbers.new }
{
    match decode_ground(octets) {
        Ok(g) => {
            if numbers.len() < G_NUMBERS {
                return Refusal::NoRoom.number();
            }
            copy_into(&flat_ground(g), numbers);
            0
        }
        Err(unread) => unread.number(),
    }
}

// 0 and how many octets were written, or the refusal's number and the length that stood there.
fn tell(w: Result<usize, Refusal>, written: &mut usize) -> u8
    ensures { (result ≡ number_of (told w)) × (written.new ≡ length_of (told w) written.old) }
{
    match w {
        Ok(n) => {
            *written = n;
            0
        }
        Err(refusal) => refusal.number(),
    }
}

pub fn adsc_write_air(numbers: &[u32], list: &[u8], out: &mut [u8], written: &mut usize) -> u8
    ensures { WritesFlat (write_pdu air_c (air_at numbers.now list.now) out.old) written.old result out.new written.new }
{
    tell(encode_air(air_at(numbers, list), out), written)
}

pub fn adsc_write_ground(numbers: &[u32], out: &mut [u8], written: &mut usize) -> u8
    ensures { WritesFlat (write_pdu ground_c (ground_at numbers.now) out.old) written.old result out.new written.new }
{
    tell(encode_ground(ground_at(numbers), out), written)
}
