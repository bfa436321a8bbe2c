/// What a `sim` is asked for, with what stands for options that aren't given.
#[derive(Clone, Copy)]
pub struct Simulation<'a> {
    /// The name of the design file.
    pub design: &'a str,
    /// The name of the stimulus.
    pub stimulus: &'a str,
    /// The name of the data file.
    pub data_name: &'a str,
    /// How many bits a count has in the data file: 1 to 64. A greater count is the greatest of so many bits.
    pub count_bits: u32,
}
