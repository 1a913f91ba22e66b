//! What lies on the links between the centres of one thread, and the rounds that the workers of a centre make over it.
#![tactic(auto)]

mod closes;
mod posts;
mod receives;
mod reports;
mod sends;
mod spot;

pub use closes::close_all;
pub use posts::Posts;
pub use receives::receive_all;
pub use reports::report_all;
pub use sends::send_all;
