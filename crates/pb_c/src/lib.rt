//! The calls of the library for C, as `include/mabristu.h` declares them. A call judges its arguments itself, and answers by a number.
#![tactic(auto)]

mod cause_name;
mod compat;
mod decoder;
mod interface;
mod listed;
mod message;
mod pool;
mod raw;
mod schema;
mod typed;

pub use cause_name::mb_cause_name;
pub use compat::witness::mb_compat_witness;
pub use compat::{DifferenceReport, mb_compat};
pub use decoder::feed::mb_decoder_feed;
pub use decoder::finish::mb_decoder_finish;
pub use decoder::free::mb_decoder_free;
pub use decoder::make::mb_decoder_new;
pub use decoder::pending::mb_decoder_pending;
pub use interface::mb_interface;
pub use message::change::{
    mb_message_clear, mb_message_drop_unknown, mb_message_insert, mb_message_push,
    mb_message_remove, mb_message_set,
};
pub use message::copy::mb_message_copy;
pub use message::decode::mb_message_decode;
pub use message::encode::{mb_message_encode, mb_message_encoded_length};
pub use message::equal::mb_message_equal;
pub use message::fields::mb_message_fields;
pub use message::frame::mb_message_frame;
pub use message::free::mb_message_free;
pub use message::from_json::mb_message_from_json;
pub use message::get::mb_message_get;
pub use message::json::mb_message_json;
pub use message::key::mb_message_key;
pub use message::keys::mb_message_keys;
pub use message::make::mb_message_new;
pub use message::merge::mb_message_merge;
pub use message::oneof::mb_message_oneof;
pub use message::read::mb_message_read;
pub use message::show::mb_message_show;
pub use message::show_decimal::mb_message_show_decimal;
pub use message::text::mb_message_text;
pub use message::unknown::mb_message_unknown;
pub use pool::compile::{mb_pool_compile, mb_pool_compile_lenient};
pub use pool::field::{FieldReport, mb_pool_field};
pub use pool::free::mb_pool_free;
pub use pool::link::mb_pool_link;
pub use pool::link_lenient::mb_pool_link_lenient;
pub use pool::path::{PathReport, mb_path};
pub use pool::refusal::Refusal;
pub use pool::set::mb_pool_set;
pub use pool::share::mb_pool_share;
pub use pool::type_number::mb_pool_type;
pub use raw::check::mb_raw_check;
pub use raw::short::mb_raw_short;
pub use schema::counts::{PoolCounts, mb_pool_counts};
pub use schema::enum_type::{EnumReport, mb_pool_enum, mb_pool_enum_value};
pub use schema::file::{FileReport, mb_pool_file};
pub use schema::message_type::{TypeReport, mb_pool_field_at, mb_pool_message, mb_pool_oneof};
pub use typed::canon::mb_canon;
pub use typed::check::mb_check;
pub use typed::find::mb_find;
pub use typed::frames::{FrameReport, mb_frames};
pub use typed::from_json::mb_from_json;
pub use typed::show::mb_show;
pub use typed::show_decimal::mb_show_decimal;
