//! The tables of texts that are shipped: one file for each language, and one line below.

mod arabic;
mod chinese;
mod czech;
mod dutch;
mod english;
mod french;
mod german;
mod hindi;
mod italian;
mod japanese;
mod korean;
mod polish;
mod portuguese;
mod russian;
mod spanish;
mod swedish;
mod turkish;
mod ukrainian;

pub use arabic::ARABIC;
pub use chinese::CHINESE;
pub use czech::CZECH;
pub use dutch::DUTCH;
pub use english::ENGLISH;
pub use french::FRENCH;
pub use german::GERMAN;
pub use hindi::HINDI;
pub use italian::ITALIAN;
pub use japanese::JAPANESE;
pub use korean::KOREAN;
pub use polish::POLISH;
pub use portuguese::PORTUGUESE;
pub use russian::RUSSIAN;
pub use spanish::SPANISH;
pub use swedish::SWEDISH;
pub use turkish::TURKISH;
pub use ukrainian::UKRAINIAN;
