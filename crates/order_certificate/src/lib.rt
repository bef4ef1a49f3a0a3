//! Certificates: what is claimed of the order of two runs, and the evidence for it, as a text.
#![tactic(auto)]

pub mod certificate;
pub mod laws;
pub mod place;
pub mod places;
pub mod reading;
pub mod topics;
pub mod writing;

pub use certificate::{
    Certificate, Evidence, NameList, TopicBound, TopicBounds, TopicWitness, Witnesses,
};
pub use laws::{
    bad_line_exists, certificates_have_texts, claim_is_on_line_6, evidence_holds_in_completions,
    evidence_implies_claim, first_bad_line_is_unique, lines_are_short, lines_say_their_places,
    no_text_begins_another, open_sums_are_determined, text_and_certificate_are_one,
    texts_are_short,
};
pub use place::{CertificatePlace, WitnessList, line_of_place};
pub use reading::{CertFault, read_certificate};
pub use writing::write_certificate;
