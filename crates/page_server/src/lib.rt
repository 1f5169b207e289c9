//! The page of a running farm over HTTP, for a bounded number of peers, each for a bounded time.
#![tactic(auto)]

mod answering;
mod asking;
mod end_flag;
mod end_text;
mod guests;
mod limited;
mod places;
mod service;
mod serving;
mod shared_page;
mod shown;

pub use end_flag::{EndFlag, end_with_input};
pub use end_text::EndText;
pub use limited::{Limit, Limited};
pub use places::{Distance, MOST_PEERS, Places, Ticket};
pub use service::PageService;
pub use serving::{PEER_MS, serve_page};
pub use shared_page::{Door, PageTimes, SharedPage};
pub use shown::Shown;
