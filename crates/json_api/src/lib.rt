//! JSON bodies: what a request asks, and what a response says.
#![tactic(auto)]

mod append;
mod body;
mod fault;
mod fields;
mod flat;
mod forms;
mod list;
mod plain;
mod reply;
mod response;
mod scan;
mod tail;
mod used;

pub use append::{put, put_number};
pub use body::json;
pub use fault::Failure;
pub use fields::Fields;
pub use flat::Flat;
pub use forms::{ApiCall, api_call_of, body_asks_once};
pub use plain::{plain_acknowledgement, plain_call, plain_query};
pub use reply::{
    DOWNLOAD_CAPACITY, ID_CAPACITY, ROW_CAPACITY, URI_CAPACITY, put_donated, put_downloads,
    put_failure, put_ids, put_looked_up, put_now, put_opened_code, put_registered,
    put_routing_number, put_uri, put_version, put_windows_set,
};
pub use response::ResponseBuffer;
