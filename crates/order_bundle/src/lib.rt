//! Bundles: certificates of many pairs of runs in one text, and one reader for certificates of either version.
#![tactic(auto)]

pub mod any_certificate;
pub mod bundle;
mod claims;
pub mod laws;
pub mod length;
mod places;
mod reading;
pub mod scoped;
mod topics;
mod writing;

pub use any_certificate::{AnyCertificate, Version};
pub use bundle::{
    Bound, Bundle, BundleTopics, PairBounds, PairClaim, PairClaims, PairEvidence, PairPicks,
    PickList, Picks, TopicNames,
};
pub use laws::{
    any_bad_line_exists, any_certificates_have_texts, any_evidence_implies_claims,
    any_first_bad_line_is_unique, any_lines_are_short, any_text_and_certificate_are_one,
    bundle_evidence_implies_claims, claims_are_certificates_written_out,
    first_line_names_the_version, no_any_text_begins_another, no_scoped_text_begins_another,
    scoped_bad_line_exists, scoped_certificates_have_texts, scoped_first_bad_line_is_unique,
    scoped_lines_are_short, scoped_text_and_certificate_are_one, scoped_text_length,
    texts_without_a_depth_are_as_before, version_1_is_as_before,
};
pub use length::{bundle_length, depth_length};
pub use places::{ClaimHead, UnorderedPair};
pub use reading::{read_any, read_scoped};
pub use scoped::Scoped;
pub use writing::{BundleFault, LONGEST_TEXT, write_bundle, write_scoped};
