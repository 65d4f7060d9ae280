// Copying items into a buffer.
ghost use Rattle.text.specs.Buffer.{Places};

// Copies items into out from index at on and returns the index after them. Where they do not fit, nothing is copied and at is returned.
// It cannot fail and answers an index, as its public promise says: no Option.
pub fn copy_into<T: Copy>(items: &[T], out: &mut [T], at: usize) -> usize
    ensures { Places out.old at items.now result out.new }
{
    if out.len() < at || out.len() - at < items.len() {
        return at;
    }
    // Item by item: copy_from_slice is a call of memmove, which the archive for C would ask of its programs.
    for (i, item) in items.iter().enumerate() {
        out[at + i] = *item;
    }
    at + items.len()
}
