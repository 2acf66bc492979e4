//! What a session does so that others finish.
use std::sync::Wait;

/// How a session lets others finish. It holds no lock when it is asked, and nobody waits for it for ever.
pub trait Patience {
    /// Lets those finish that came before. A request begins after that, or goes on with what it waited for.
    fn enter<R: Wait>(&mut self, rt: &R);

    /// Lets others finish after a lost race, before the next turn. So many races were lost for the line that
    /// is done, this one among them.
    fn wait<R: Wait>(&mut self, rt: &R, losses: u32);

    /// Lets those go on that came after: the request has its answer, or comes to none for now.
    fn leave(&mut self);

    /// Lets those finish that waited when the last request was left, before what was written is made sure of:
    /// so that it is done once for all of them. Where nobody waited it takes no time.
    fn before_settling<R: Wait>(&mut self, rt: &R);
}
