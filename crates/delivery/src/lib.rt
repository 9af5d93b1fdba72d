//! Broadcasts of subscription versions to the carriers, and the downloads pending for each.
#![tactic(auto)]

mod broadcast;
mod download;
mod mirror;

pub use broadcast::Broadcast;
pub use download::{Download, DownloadKey, may_acknowledge};
pub use mirror::{Mirror, RoutedRow};
