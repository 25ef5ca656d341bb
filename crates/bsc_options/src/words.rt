//! What was given of the arguments and options of a command.

ghost use Rattle.std.specs.Prelude.{◌≡◌, map, option_map, string_bytes};
ghost use Rattle.bsc_options.specs.Words.{given_at, given_or, given_value, has_anything, is_given};
ghost use Rattle.bsc_options.specs.Words.{first_of, required, text_at, texts_at, times_at};
ghost use Rattle.bsc_options.specs.Words.{words_value};

/// What was given of one argument or option.
#[derive(Debug, Drop)]
pub struct Given {
    /// Its name.
    pub id: &'static str,

    /// How often it was given, if it has no value.
    pub times: u8,

    /// Its values, in the order in which they were given.
    pub texts: Vec<String>,
}

/// What was given of the arguments and options of a command.
#[derive(Debug, Drop)]
pub struct Words {
    /// Of each row of its table, in order.
    pub given: Vec<Given>,
}

impl Words {
    /// Returns what was given under this name, if there is a row of this name.
    fn at(&self, id: &str) -> Option<&Given>
        ensures { given_or id.now (option_map (λ f. given_value f.now) result)
            ≡ given_at id.now (words_value self.now) }
    {
        'given: for given in &self.given {
            if given.id == id {
                return Some(given);
            }
        }
        None
    }

    /// Whether an option of this name was given.
    pub fn is_given(&self, id: &str) -> bool
        ensures { result ≡ is_given id.now (words_value self.now) }
    {
        match self.at(id) {
            Some(given) => given.is_given(),
            None => false,
        }
    }

    /// Returns how often an option without a value was given.
    pub fn times(&self, id: &str) -> u8
        ensures { result ≡ times_at id.now (words_value self.now) }
    {
        match self.at(id) {
            Some(given) => given.times,
            None => 0,
        }
    }

    /// Returns the value that was given under this name, the first one if there are more.
    pub fn text(&self, id: &str) -> Option<&str>
        ensures { option_map (λ text. text.now) result ≡ text_at id.now (words_value self.now) }
    {
        match self.at(id) {
            Some(given) => given.first(),
            None => None,
        }
    }

    /// Returns the value of an argument that has to be given; the empty text if it was not.
    pub fn required(&self, id: &str) -> &str
        ensures { result.now ≡ required id.now (words_value self.now) }
    {
        self.text(id).unwrap_or("")
    }

    /// Returns the values that were given under this name, in order.
    pub fn texts(&self, id: &str) -> &[String]
        ensures { map string_bytes result.now ≡ texts_at id.now (words_value self.now) }
    {
        match self.at(id) {
            Some(given) => given.texts.as_slice(),
            None => &[],
        }
    }
}

impl Given {
    /// Whether it was given.
    fn is_given(&self) -> bool
        ensures { result ≡ has_anything (given_value self.now) }
    {
        self.times > 0 || self.first().is_some()
    }

    /// Returns its first value.
    fn first(&self) -> Option<&str>
        ensures { option_map (λ text. text.now) result ≡ first_of (given_value self.now).texts }
    {
        match self.texts.first() {
            Some(text) => Some(text.as_str()),
            None => None,
        }
    }
}
