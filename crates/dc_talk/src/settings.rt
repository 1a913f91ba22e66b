/// What never changes of a centre: its number, how many centres there are, how many of them make an
/// update stable, and how many transactions it may stamp. Centres are numbered from 1.
#[derive(Clone, Copy)]
pub struct Settings {
    pub me: u8,
    pub n: u8,
    pub k: u8,
    pub limit: u64,
}
