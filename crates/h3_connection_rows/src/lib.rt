//! Rows and hostile lists of calls that the definitions of an endpoint compute, as laws with closed equations.
#![tactic(auto)]

pub mod client_cases_1;
pub mod client_cases_2;
pub mod client_cases_3;
pub mod client_cases_4;
pub mod client_cases_5;
pub mod client_cases_6;
pub mod end_rows;
pub mod fault_rows;
pub mod isolation_rows;
pub mod kept_rows;
pub mod limit_rows;
pub mod message_rows;
pub mod order_rows;
pub mod other_stream_rows;
pub mod sending_rows;
pub mod server_cases_1;
pub mod server_cases_2;
pub mod server_cases_3;
pub mod server_cases_4;
pub mod server_cases_5;
pub mod server_cases_6;
pub mod setting_rows;
pub mod strict_rows;
pub mod table_rows;
pub mod unread_rows;
pub mod update_rows;
