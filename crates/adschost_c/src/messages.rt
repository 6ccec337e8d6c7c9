// PDUs to flat numbers and back.
ghost use Rattle.per.specs.Pdu.{read_pdu};
ghost use Rattle.per.specs.Writing.{write_pdu};
ghost use Rattle.pdu.specs.UplinkTable.{ground_c};
ghost use Rattle.pdu.specs.DownlinkTable.{air_c};
ghost use Rattle.host_numbers.specs.UplinkNumbers.{ground_at};
ghost use Rattle.host_numbers.specs.DownlinkNumbers.{air_at};
ghost use Rattle.adschost.specs.Flatness.{air_shown, ShowsAir, ground_shown, ShowsGround, WritesFlat};

// An aircraft PDU as 40 numbers and the 128 octets of its list.
#[unsafe(no_mangle)]
pub extern "C" fn adsc_read_air(octets: &[u8], numbers: &mut [u32], list: &mut [u8]) -> u8
    ensures { ShowsAir (air_shown (read_pdu air_c octets.now) numbers.old list.old) result numbers.new list.new }
{
    adschost::messages::adsc_read_air(octets, numbers, list)
}

// A ground PDU as numbers.
#[unsafe(no_mangle)]
pub extern "C" fn adsc_read_ground(octets: &[u8], numbers: &mut [u32]) -> u8
    ensures { ShowsGround (ground_shown (read_pdu ground_c octets.now) numbers.old) result numbers.new }
{
    adschost::messages::adsc_read_ground(octets, numbers)
}

#[unsafe(no_mangle)]
pub extern "C" fn adsc_write_air(
    numbers: &[u32],
    list: &[u8],
    out: &mut [u8],
    written: &mut usize,
) -> u8
    ensures { WritesFlat (write_pdu air_c (air_at numbers.now list.now) out.old) written.old result out.new written.new }
{
    adschost::messages::adsc_write_air(numbers, list, out, written)
}

#[unsafe(no_mangle)]
pub extern "C" fn adsc_write_ground(numbers: &[u32], out: &mut [u8], written: &mut usize) -> u8
    ensures { WritesFlat (write_pdu ground_c (ground_at numbers.now) out.old) written.old result out.new written.new }
{
    adschost::messages::adsc_write_ground(numbers, out, written)
}
