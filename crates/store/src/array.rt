// An array of strings that is lent.
ghost use Rattle.std.specs.Prelude.{◌≡◌, length};
ghost use Rattle.text.specs.Buffer.{put};
ghost use Rattle.text.specs.Replies.{outcome};
ghost use Rattle.writer.specs.Array.{payload};
ghost use Rattle.writer.specs.Replies.{measured_payload};
ghost use Rattle.store.specs.Stages.{array_lent, ArrayFits};

use text::error::MatError;
use writer::string_object::{encode_string_saveobj_payload, measure_payload};

// Its dimensions, and a text of which the spans name the strings.
#[derive(Clone, Copy, Debug)]
pub struct StringArray<'a> {
    pub dims: &'a [u64],
    pub text: &'a [u8],
    pub spans: &'a [u64],
}

impl StringArray<'_> {
    // Checks 30 to 32, and the words of its payload.
    pub(crate) fn measure(self) -> Result<usize, MatError>
        ensures { let a = self.entry in outcome result ≡ measured_payload a.dims.now a.text.now a.spans.now }
    {
        measure_payload(self.dims, self.text, self.spans)
    }

    // Writes its payload into words from index start on, where it fits.
    pub(crate) fn put(self, words: &mut [u64], start: usize)
        requires { ArrayFits self start (length words.old) }
        ensures { words.new ≡ put words.old start (payload (array_lent self.entry)) }
    {
        let _ = encode_string_saveobj_payload(
            self.dims,
            self.text,
            self.spans,
            &mut words[start..],
        );
    }
}
