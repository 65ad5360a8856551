//! That the evidence in an office's file is true and complete.
ghost use Rattle.office_guarantees.specs.TrueFiles.{FilesAreTrue, FilesAreTrueSince};

use office_commands::law_of_file_histories;
use office_evidence::laws::texts::law_of_certificate_texts;
use office_evidence::laws::truth::{
    law_of_a_true_certificate, law_of_lasting_evidence, law_of_true_entries,
};
use office_rules::laws::soundness::law_of_soundness;

/// Each certificate in an office's file is true of what the office did since its file was made, and
/// complete. So is each that the program printed. After any runs of the program from no file on, one
/// after another, each of which may be killed, there are acts that account for the file
/// (`AccountFor`): the runs did these acts, in their order, and the file stands for the office after
/// them. The evidence of that office is true of these acts (`IsTrueEvidence`): each certificate, with
/// no record left out that was due (`IsTrueCertificate`), each entry (`IsTrueEntry`), and what
/// `certificate` printed when it was done. Each certificate is UTF-8.
///
/// `since` starts from files that stand for any sound office: it speaks of the disposal runs that
/// were opened since.
///
/// An opening of the file finds this very office, by `found` of `office_life::find`. A run leads from
/// one file to the next as `law_of_each_run` says, which lists what lies outside of it.
pub fn law_of_true_files()
    ensures from_no_file { FilesAreTrue }
    ensures since { FilesAreTrueSince }
{
    law_of_file_histories();
    law_of_a_true_certificate();
    law_of_true_entries();
    law_of_lasting_evidence();
    law_of_certificate_texts();
    law_of_soundness();
}
