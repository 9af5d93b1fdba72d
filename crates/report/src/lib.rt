//! What the rows of a register show at one look, and the page that shows it.
#![tactic(auto)]

mod carriers;
mod chart;
mod charts;
mod counts;
mod figures;
mod life;
mod moments;
mod page;
mod style;
mod texts;

pub use carriers::CarrierFigures;
pub use counts::{DAYS, HOURS, STATUSES, VersionCounts};
pub use figures::Figures;
pub use life::{Life, Sent};
pub use page::{PageFault, page_text, write_page};
pub use texts::date_of;
