// Why a header is refused: its length, or the first of its parts that would be refused in a header whose other parts are right.
ghost use Rattle.std.specs.Prelude.{◌≡◌};
ghost use Rattle.reel.specs.Header.{header_of};
ghost use Rattle.input.specs.Fault.{is_refused, header_told, fault_in, fault_of};

use ending::Fault;
use reel::Header;

fn is_refused(header: &[u8]) -> bool
    ensures { result ≡ is_refused (header_of header.now) }
{
    reel::read_header(header).is_err()
}

// The header that some bytes say, or why it is refused.
pub fn header_in(b: &[u8]) -> Result<Header, Fault>
    ensures header { header_told result ≡ header_of b.now }
    ensures fault { fault_in result ≡ fault_of b.now }
{
    if b.len() < 16 {
        return Err(Fault::HeaderShort);
    }
    let count = [b[0], b[1], b[2], b[3], 0, 0, 0, 16, 0, 0, 0, 0, 0, 0, 0, 0];
    if is_refused(&count) {
        return Err(Fault::CountTooLarge);
    }
    let offset = [0, 0, 0, 0, b[4], b[5], b[6], b[7], 0, 0, 0, 0, 0, 0, 0, 0];
    if is_refused(&offset) {
        return Err(Fault::OffsetTooSmall);
    }
    match reel::read_header(b) {
        Ok(header) => Ok(header),
        Err(_) => Err(Fault::HasSummary),
    }
}
