// A call as the program reads it from a line.
#![tactic(auto)]

// What is asked for. Open's second and third number tell where among the lent numbers its job
// words begin, and how many they are; audit's two the same of its record's words.
#[derive(Clone, Copy)]
pub enum Command {
    Unread,
    New(u32, u32, u32, u32),
    Open(u32, usize, usize),
    Fetch(u32, u32),
    Evict(u32, u32),
    Prepare(u32),
    Step(u32, u32, u32),
    Issue(u32, u32, u32),
    Drop(u32),
    Look(u32, u32, u32),
    Explain(u32, u32, u32),
    Stale(u32),
    Admit,
    Allow(u32, u32),
    Pick,
    Mayhold(u32, u32),
    Maysave(u32, u32),
    Fork(u32),
    Join(u32),
    Forecast(u32),
    Audit(usize, usize),
}
