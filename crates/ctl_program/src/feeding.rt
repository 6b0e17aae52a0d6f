//! What `load` and `wrap` have in common.
use anyhow::{Result, bail};
use ctl_feed::FeedEnding;

/// How far an input was taken, or why no more of it is.
pub fn fed<T>(ending: Result<T, FeedEnding>) -> Result<T> {
    match ending {
        Ok(done) => Ok(done),
        Err(FeedEnding::NoMemory) => bail!("out of memory"),
        Err(FeedEnding::InputFault) => bail!("the input cannot be read"),
        Err(FeedEnding::OutputFault) => bail!("the output cannot be written"),
    }
}
