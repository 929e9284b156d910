//! What an operator's request asks for: the method, the path and the body of HTTP.
#![tactic(auto)]

mod bodies;
mod file_path;
mod member;
mod methods;
mod numbers;
mod order;
mod order_key;
mod order_name;
mod parts;
mod quote;
mod refusal;
mod request;
mod resource;
mod same;
mod terms;
mod text;
mod users;

pub use file_path::FilePath;
pub use member::Member;
pub use methods::Methods;
pub use order::Order;
pub use order_key::OrderKey;
pub use order_name::OrderName;
pub use quote::Quote;
pub use refusal::RequestRefusal;
pub use request::{EndMoment, LineState, LineWish, Request};
pub use resource::Resource;
pub use same::{are_same_terms, is_same_order};
pub use terms::Terms;
