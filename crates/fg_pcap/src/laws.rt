//! Laws of the definitions of a capture, each the contract of a function that only calls other laws.
ghost use Rattle.fg_pcap.specs.Laws.{HeadersCheck, OneCapture, OneDatagram, OneSpelling, WrittenIsReadBack};

use fg_trace::laws::one_trace;

/// A frame gives at most one datagram.
pub fn one_datagram()
    ensures { OneDatagram }
{}

/// Bytes come to one trace, and to one ending.
pub fn one_capture()
    ensures { OneCapture }
{}

/// A receiver's test of the checksum passes for each IPv4 header that is written.
pub fn headers_check()
    ensures { HeadersCheck }
{}

/// Of bytes one list of records is written, with one ending.
pub fn one_spelling()
    ensures { OneSpelling }
{
    one_trace();
}

/// The capture of records that all fit is read as the trace of those records.
pub fn written_is_read_back()
    ensures { WrittenIsReadBack }
{}
