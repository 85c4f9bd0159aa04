// A list of chunks in lent memory: how many numbers follow; for each chunk that a cut ends its length, and the place and the
// value of its maximum point; then the length of the last chunk (see the crate `difference`).

// A list that is being written, and how many numbers it has so far.
#[derive(Drop)]
pub struct List<'a> {
    memory: &'a mut [usize],
    count: usize,
}

impl<'a> List<'a> {
    // A list without numbers.
    pub fn new(memory: &'a mut [usize]) -> List<'a> {
        List { memory, count: 0 }
    }

    // Puts a number behind the others. A number for which there is no room is counted all the same: the comparison then
    // shows a difference.
    fn add(&mut self, number: usize) {
        self.count = self.count.wrapping_add(1);
        if self.count < self.memory.len() {
            self.memory[self.count] = number;
        }
    }

    // Puts the three numbers of a chunk that a cut ends behind the others.
    pub fn add_cut(&mut self, length: usize, place: usize, value: u8) {
        self.add(length);
        self.add(place);
        self.add(usize::from(value));
    }

    // Ends the list with the length of the last chunk.
    pub fn end(&mut self, last: usize) {
        self.add(last);
        self.write_count();
    }

    // Ends the list with more numbers than there is room for, which no list is the same as.
    pub fn spoil(&mut self) {
        self.count = self.memory.len();
        self.write_count();
    }

    // Writes how many numbers follow.
    fn write_count(&mut self) {
        if let Some(first) = self.memory.first_mut() {
            *first = self.count;
        }
    }
}
