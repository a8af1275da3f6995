//! Laws of the definitions, each the contract of a function that does nothing, or only calls laws of the crates below.
ghost use Rattle.fg_run.specs.AcceptedProofs.{ProofsAreAccepted};
ghost use Rattle.fg_run.specs.Headline.{WindowsShowSoundPeelings};
ghost use Rattle.fg_run.specs.Laws.{OneAnswer, OneRequest, WholeStreamsAreDone};

use fg_check::laws::{one_check, one_text, one_told, proved_texts_are_accepted};
use fg_cli::laws::{one_question, one_reading};
use fg_encode::stream::one_cut;
use fg_pcap::laws::{one_capture, one_spelling};
use fg_playout::laws::one_list_of_desks;
pub use fg_playout::laws::{
    peelings_are_of_words, plays_show_sound_peelings, runs_show_what_was_admitted,
};
use fg_prove::laws::proved_cases_are_writable;
use fg_trace::laws::one_trace;

/// Words ask for at most one request.
pub fn one_request()
    ensures { OneRequest }
{
    one_question();
    one_reading();
}

/// A request has at most one answer over the bytes of an input.
pub fn one_answer()
    ensures { OneAnswer }
{
    one_trace();
    one_cut();
    one_capture();
    one_spelling();
    one_check();
    one_text();
    one_told();
}

/// A stream of whole packets within the limit is encoded to its end.
pub fn whole_streams_are_done()
    ensures { WholeStreamsAreDone }
{}

/// Each window of a repair shows what every sound peeling of what was admitted before its playout gives, or the received words alone
/// where none is sound.
pub fn windows_show_sound_peelings()
    ensures { WindowsShowSoundPeelings }
{
    one_list_of_desks();
    runs_show_what_was_admitted();
}

/// `check` accepts what `prove` writes, wherever the text is no longer than its limit: it is done, and says `yes` of each case.
pub fn proofs_are_accepted()
    ensures { ProofsAreAccepted }
{
    proved_cases_are_writable();
    proved_texts_are_accepted();
}
