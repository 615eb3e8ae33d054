//! What can be seen of a node.

ghost use Rattle.std.specs.Prelude.{◌≡◌, ◌==◌, ◌&&◌, slice_index_or};
ghost use Rattle.machine_steps.specs.Node.{awaits_by};

use crate::node::Node;
use crate::stage::Stage;
use letters::Letter;

impl Node {
    /// The slots: scalars and hidden numbers.
    pub fn slots(&self) -> &[i64]
        ensures { result.now ≡ self.now.control.slots }
    {
        &self.control.slots
    }

    /// The number of the next letter to a node, counted from 1; 0 where there is no such node.
    pub fn next_number(&self, to: u32) -> u64
        ensures { result ≡ slice_index_or self.now.next_to to 0 }
    {
        self.post.next_number(to)
    }

    /// Whether a letter is the one that the node takes next: the letter of this run and pair with the pair's next number.
    pub fn is_awaited(&self, mail: &Letter) -> bool
        ensures { result ≡ awaits_by self.now.stage self.now mail.now }
    {
        match self.stage {
            Stage::Ready => false,
            Stage::Passing => {
                if let Some(_target) = self.post.target() {
                    false
                } else if let Some(source) = self.post.source() {
                    self.is_next(mail, source)
                } else {
                    false
                }
            }
            Stage::Passed => false,
        }
    }
    /// Whether a letter is the next one from this node.
    fn is_next(&self, letter: &Letter, source: u32) -> bool
        ensures { result ≡ ((letter.now.run == 1) && ((letter.now.from.0 == source) && ((letter.now.to.0 == self.now.id)
            && (letter.now.number == slice_index_or self.now.next_from source 0)))) }
    {
        letter.run == 1
            && letter.from.0 == source
            && letter.to.0 == self.id
            && letter.number == self.post.number_from(source)
    }
}
