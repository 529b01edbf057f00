// What loading a file comes to.

// The number of the refusal, the place of the event that it befell, and the tester as it stands; number
// and place are 0 where all is loaded. They are no Option: the definition `load`, under the theorem `loaded`, says them so.
#[derive(Clone, Copy)]
pub struct Loaded<T> {
    pub number: u8,
    pub place: u32,
    pub tester: T,
}
