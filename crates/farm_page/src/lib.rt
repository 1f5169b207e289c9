//! The page of a running farm: what is shown of it, and what a request for it is answered. It opens no socket and starts no thread.
//!
//! A [`FarmView`] is a farm after one of its attempts to plan. [`reply_to`] answers a request about it: [`place_asked`] says what is asked
//! for or why it is refused, and the texts are [`page_text`], [`metrics_text`], [`evidence_text`], [`lost_text`] and [`health_text`].
//!
//! | request | answer |
//! |---|---|
//! | `GET /` | the page, asked for again every five seconds, `/?still` not; it is bad if the last attempt is late, not if the farm ends |
//! | `GET /metrics` | the metrics, in the text format of Prometheus |
//! | `GET /evidence` | the report, the status text and the lost workers of one attempt, in one text |
//! | `GET /report`, `/status.txt`, `/lost` | its parts |
//! | `GET /relaxed/settings`, `/relaxed/report` | its parts if no plan meets all least numbers, and one that leaves some out is in force |
//! | `GET /health` | 200 if the farm goes on and its last attempt led to a plan, no more than three rounds ago, else 503; and how it is |
//! | `GET /live` | 200 if the farm ends, or its last attempt ended no more than three rounds and a minute ago, else 503; and how it is |
//! | `POST /drain` | the end of the farm, if it comes from this machine with the header `poolman: drain` |
//!
//! HEAD has the headers of GET. A request for another host gets 403, another path 404, another method 405.
#![tactic(auto)]

mod answer;
mod attempts;
mod cells;
mod condition;
mod drawing;
mod evidence;
mod failures;
mod headers;
mod health;
mod markup;
mod measured;
mod metric;
mod metrics;
mod notices;
mod page;
mod replying;
mod request;
mod rows;
mod sections;
mod style;
mod view;
mod writing;

pub use answer::{Allowed, Answer, Content, Status};
pub use attempts::{Attempts, DRAWN};
pub use condition::{Condition, condition_of, sentence, shortage_words};
pub use evidence::{evidence_text, lost_text};
pub use failures::Failures;
pub use headers::{Header, headers_of};
pub use health::{FarmPhase, Moment, condition_at, health_text, is_healthy, is_live, sentence_at};
pub use markup::{Markup, escaped};
pub use measured::{FarmNumber, FunctionNumber, HostNumber};
pub use metric::{METRICS, Metric, MetricKind, Row, Value};
pub use metrics::metrics_text;
pub use page::{Refresh, page_text};
pub use replying::{Reply, Seen, reply_to};
pub use request::{Asked, Method, Place, Refusal, Site, place_asked};
pub use style::POLICY;
pub use view::{
    AttemptView, EndView, Evidence, FailureEnd, FailureView, FarmView, FunctionView, HostView,
    JobEnds, JobsAgain, MissingView, Outcome, RelaxedPlan, Shortage, SizeView, Turnover, Workers,
};
