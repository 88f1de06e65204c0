ghost use Rattle.std.specs.Prelude.{◌≡◌, option_map};
ghost use Rattle.df_keep.specs.Script.{NamesIn, texts};

/// The names that the words of a run are.
#[derive(Clone, Copy, Debug)]
pub struct Names<'a> {
    pub script: &'a str,
    pub store: &'a str,
}

/// The names of a script and of a store, where the words are two, and neither is empty.
pub fn named_in(words: &[String]) -> Option<Names<'_>>
    ensures { NamesIn (texts words.now) (option_map (λ n. n.script.now) result) }
{
    let [script, store] = words else {
        return None;
    };
    if script.is_empty() || store.is_empty() {
        return None;
    }
    Some(Names {
        script: script.as_str(),
        store: store.as_str(),
    })
}
