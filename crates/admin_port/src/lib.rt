//! The texts of the admin port of a node that stays: the requests that it takes, as they are read, and its answers, as they are printed;
//! and its page of metrics.
#![tactic(auto)]

mod answers;
mod definition_words;
mod http_requests;
mod idle;
mod lag_metrics;
mod laws;
mod lines;
mod metric_families;
mod metrics_pages;
mod pages;
mod peer_metrics;
mod process_metrics;
mod process_texts;
mod reports;
mod request_keys;
mod request_words;
mod requests;
mod samples;
mod shown_keys;
mod shown_rates;
mod shown_tables;
mod table_metrics;
mod table_names;

pub use answers::{
    Answer, push_answer, push_found, push_refused, push_rows, push_too_many, push_tracked,
};
pub use definition_words::push_side;
pub use http_requests::{HttpRequest, Page, asks_for_page, read_http_request};
pub use idle::{is_idle_too_long, longest_idle};
pub use lag_metrics::TableLag;
pub use laws::{lone_event, one_request, rates_at_borders};
pub use metrics_pages::{
    FaultCount, Metrics, NodeMetrics, PassedOver, RefusedHellos, metrics_page,
};
pub use pages::{
    Extent, Health, push_fields_too_large, push_health, push_method_not_allowed, push_metrics,
    push_missing_page, push_overview, push_ready, push_too_many_clients,
    push_version_not_supported,
};
pub use peer_metrics::{PeerMetrics, ResyncsEnded, SessionsEnded};
pub use process_metrics::{BuildInfo, ProcessMetrics};
pub use process_texts::{ProcessStat, open_descriptors, read_process_stat};
pub use reports::{PeerReport, PeerRole, PeerState, PeerTableReport, push_node, push_peers};
pub use requests::{MOST_REQUEST, Request, read_request};
pub use shown_tables::{push_live_rows, push_table_header};
pub use table_metrics::TableMetrics;
pub use table_names::{push_table_name, table_name, table_named};
