// The words of each reading in byte order, a row of 16 bytes each: the word, filled up to 14 with dots and blanks, its length and its lexeme.
// (Rows of 14 bytes take more to be found than they save, as was measured.)
ghost use Rattle.std.specs.Prelude.{◌≡◌, ◌+◌, ◌≤◌, length, take, drop};
ghost use Rattle.lexer.specs.Keywords.{words_in};
ghost use Rattle.lexer.specs.declared.reading.Reading.TheVariants.{First, Second};
ghost use Rattle.lexer.specs.Table.{sorted, cells, bytes_from};

static FIRST_WORDS: [u8; 2128] = *b"\
    a. . . . . . .\x01\x64\
    after. . . . .\x05\x74\
    ago. . . . . .\x03\x94\
    am . . . . . .\x02\x8a\
    an . . . . . .\x02\x65\
    and. . . . . .\x03\x70\
    apr. . . . . .\x03\x81\
    april. . . . .\x05\x81\
    at . . . . . .\x02\x68\
    aug. . . . . .\x03\x85\
    august . . . .\x06\x85\
    before . . . .\x06\x93\
    billion. . . .\x07\x9b\
    billionth. . .\x09\x9b\
    day. . . . . .\x03\x8c\
    days . . . . .\x04\x8c\
    dec. . . . . .\x03\x89\
    december . . .\x08\x89\
    eight. . . . .\x05\x08\
    eighteen . . .\x08\x12\
    eighteenth . .\x0a\x12\
    eightieth. . .\x09\x50\
    eighty . . . .\x06\x50\
    eigth. . . . .\x05\x08\
    eleven . . . .\x06\x0b\
    eleventh . . .\x08\x0b\
    feb. . . . . .\x03\x7f\
    february . . .\x08\x7f\
    fifteen. . . .\x07\x0f\
    fifteenth. . .\x09\x0f\
    fifth. . . . .\x05\x05\
    fiftieth . . .\x08\x32\
    fifty. . . . .\x05\x32\
    first. . . . .\x05\x01\
    five . . . . .\x04\x05\
    four . . . . .\x04\x04\
    fourteen . . .\x08\x0e\
    fourteenth . .\x0a\x0e\
    fourth . . . .\x06\x04\
    fourtieth. . .\x09\x28\
    fourty . . . .\x06\x28\
    friday . . . .\x06\x7b\
    from . . . . .\x04\x6e\
    hour . . . . .\x04\x8e\
    hours. . . . .\x05\x8e\
    hundred. . . .\x07\x98\
    hundredth. . .\x09\x98\
    in . . . . . .\x02\x67\
    jan. . . . . .\x03\x7e\
    january. . . .\x07\x7e\
    jul. . . . . .\x03\x84\
    july . . . . .\x04\x84\
    jun. . . . . .\x03\x83\
    june . . . . .\x04\x83\
    last . . . . .\x04\x9c\
    mar. . . . . .\x03\x80\
    march. . . . .\x05\x80\
    may. . . . . .\x03\x82\
    midnight . . .\x08\x95\
    million. . . .\x07\x9a\
    millionth. . .\x09\x9a\
    min. . . . . .\x03\x8f\
    mins . . . . .\x04\x8f\
    minute . . . .\x06\x8f\
    minutes. . . .\x07\x8f\
    monday . . . .\x06\x77\
    month. . . . .\x05\x90\
    months . . . .\x06\x90\
    nd . . . . . .\x02\x9e\
    next . . . . .\x04\x76\
    nine . . . . .\x04\x09\
    nineteen . . .\x08\x13\
    nineteenth . .\x0a\x13\
    ninetieth. . .\x09\x5a\
    ninety . . . .\x06\x5a\
    ninth. . . . .\x05\x09\
    noon . . . . .\x04\x96\
    nov. . . . . .\x03\x88\
    november . . .\x08\x88\
    now. . . . . .\x03\x6f\
    oct. . . . . .\x03\x87\
    october. . . .\x07\x87\
    on . . . . . .\x02\x66\
    one. . . . . .\x03\x01\
    pm . . . . . .\x02\x8b\
    rd . . . . . .\x02\x9f\
    saturday . . .\x08\x7c\
    second . . . .\x06\x02\
    sep. . . . . .\x03\x86\
    september. . .\x09\x86\
    seven. . . . .\x05\x07\
    seventeen. . .\x09\x11\
    seventeenth. .\x0b\x11\
    seventh. . . .\x07\x07\
    seventieth . .\x0a\x46\
    seventy. . . .\x07\x46\
    six. . . . . .\x03\x06\
    sixteen. . . .\x07\x10\
    sixteenth. . .\x09\x10\
    sixth. . . . .\x05\x06\
    sixtieth . . .\x08\x3c\
    sixty. . . . .\x05\x3c\
    st . . . . . .\x02\x9d\
    sunday . . . .\x06\x7d\
    ten. . . . . .\x03\x0a\
    tenth. . . . .\x05\x0a\
    th . . . . . .\x02\x9f\
    the. . . . . .\x03\x69\
    third. . . . .\x05\x03\
    thirteen . . .\x08\x0d\
    thirteenth . .\x0a\x0d\
    thirtieth. . .\x09\x1e\
    thirty . . . .\x06\x1e\
    this . . . . .\x04\x75\
    thousand . . .\x08\x99\
    thousandth . .\x0a\x99\
    three. . . . .\x05\x03\
    thursday . . .\x08\x7a\
    today. . . . .\x05\x6b\
    tomorrow . . .\x08\x6c\
    tuesday. . . .\x07\x78\
    twelfth. . . .\x07\x0c\
    twelve . . . .\x06\x0c\
    twentieth. . .\x09\x14\
    twenty . . . .\x06\x14\
    two. . . . . .\x03\x02\
    wednesday. . .\x09\x79\
    week . . . . .\x04\x8d\
    weeks. . . . .\x05\x8d\
    year . . . . .\x04\x91\
    years. . . . .\x05\x91\
    yesterday. . .\x09\x6d\
    zero . . . . .\x04\x97\
";

static SECOND_WORDS: [u8; 2176] = *b"\
    a. . . . . . .\x01\x64\
    after. . . . .\x05\x74\
    ago. . . . . .\x03\x94\
    am . . . . . .\x02\x8a\
    an . . . . . .\x02\x65\
    and. . . . . .\x03\x70\
    apr. . . . . .\x03\x81\
    april. . . . .\x05\x81\
    at . . . . . .\x02\x68\
    aug. . . . . .\x03\x85\
    august . . . .\x06\x85\
    before . . . .\x06\x93\
    billion. . . .\x07\x9b\
    billionth. . .\x09\x9b\
    day. . . . . .\x03\x8c\
    days . . . . .\x04\x8c\
    dec. . . . . .\x03\x89\
    december . . .\x08\x89\
    eight. . . . .\x05\x08\
    eighteen . . .\x08\x12\
    eighteenth . .\x0a\x12\
    eighth . . . .\x06\x08\
    eightieth. . .\x09\x50\
    eighty . . . .\x06\x50\
    eigth. . . . .\x05\x08\
    eleven . . . .\x06\x0b\
    eleventh . . .\x08\x0b\
    feb. . . . . .\x03\x7f\
    february . . .\x08\x7f\
    fifteen. . . .\x07\x0f\
    fifteenth. . .\x09\x0f\
    fifth. . . . .\x05\x05\
    fiftieth . . .\x08\x32\
    fifty. . . . .\x05\x32\
    first. . . . .\x05\x01\
    five . . . . .\x04\x05\
    fortieth . . .\x08\x28\
    forty. . . . .\x05\x28\
    four . . . . .\x04\x04\
    fourteen . . .\x08\x0e\
    fourteenth . .\x0a\x0e\
    fourth . . . .\x06\x04\
    fourtieth. . .\x09\x28\
    fourty . . . .\x06\x28\
    friday . . . .\x06\x7b\
    from . . . . .\x04\x6e\
    hour . . . . .\x04\x8e\
    hours. . . . .\x05\x8e\
    hundred. . . .\x07\x98\
    hundredth. . .\x09\x98\
    in . . . . . .\x02\x67\
    jan. . . . . .\x03\x7e\
    january. . . .\x07\x7e\
    jul. . . . . .\x03\x84\
    july . . . . .\x04\x84\
    jun. . . . . .\x03\x83\
    june . . . . .\x04\x83\
    last . . . . .\x04\x9c\
    mar. . . . . .\x03\x80\
    march. . . . .\x05\x80\
    may. . . . . .\x03\x82\
    midnight . . .\x08\x95\
    million. . . .\x07\x9a\
    millionth. . .\x09\x9a\
    min. . . . . .\x03\x8f\
    mins . . . . .\x04\x8f\
    minute . . . .\x06\x8f\
    minutes. . . .\x07\x8f\
    monday . . . .\x06\x77\
    month. . . . .\x05\x90\
    months . . . .\x06\x90\
    nd . . . . . .\x02\x9e\
    next . . . . .\x04\x76\
    nine . . . . .\x04\x09\
    nineteen . . .\x08\x13\
    nineteenth . .\x0a\x13\
    ninetieth. . .\x09\x5a\
    ninety . . . .\x06\x5a\
    ninth. . . . .\x05\x09\
    noon . . . . .\x04\x96\
    nov. . . . . .\x03\x88\
    november . . .\x08\x88\
    now. . . . . .\x03\x6f\
    oct. . . . . .\x03\x87\
    october. . . .\x07\x87\
    on . . . . . .\x02\x66\
    one. . . . . .\x03\x01\
    pm . . . . . .\x02\x8b\
    rd . . . . . .\x02\x9f\
    saturday . . .\x08\x7c\
    second . . . .\x06\x02\
    sep. . . . . .\x03\x86\
    september. . .\x09\x86\
    seven. . . . .\x05\x07\
    seventeen. . .\x09\x11\
    seventeenth. .\x0b\x11\
    seventh. . . .\x07\x07\
    seventieth . .\x0a\x46\
    seventy. . . .\x07\x46\
    six. . . . . .\x03\x06\
    sixteen. . . .\x07\x10\
    sixteenth. . .\x09\x10\
    sixth. . . . .\x05\x06\
    sixtieth . . .\x08\x3c\
    sixty. . . . .\x05\x3c\
    st . . . . . .\x02\x9d\
    sunday . . . .\x06\x7d\
    ten. . . . . .\x03\x0a\
    tenth. . . . .\x05\x0a\
    th . . . . . .\x02\xa0\
    the. . . . . .\x03\x69\
    third. . . . .\x05\x03\
    thirteen . . .\x08\x0d\
    thirteenth . .\x0a\x0d\
    thirtieth. . .\x09\x1e\
    thirty . . . .\x06\x1e\
    this . . . . .\x04\x75\
    thousand . . .\x08\x99\
    thousandth . .\x0a\x99\
    three. . . . .\x05\x03\
    thursday . . .\x08\x7a\
    today. . . . .\x05\x6b\
    tomorrow . . .\x08\x6c\
    tuesday. . . .\x07\x78\
    twelfth. . . .\x07\x0c\
    twelve . . . .\x06\x0c\
    twentieth. . .\x09\x14\
    twenty . . . .\x06\x14\
    two. . . . . .\x03\x02\
    wednesday. . .\x09\x79\
    week . . . . .\x04\x8d\
    weeks. . . . .\x05\x8d\
    year . . . . .\x04\x91\
    years. . . . .\x05\x91\
    yesterday. . .\x09\x6d\
    zero . . . . .\x04\x97\
";

// All rows of the first reading, lent as they lie in the program: a constant would be made anew, byte by byte, in every call.
pub(crate) fn first_rows() -> &'static [u8]
    ensures { result.now ≡ cells (sorted (words_in First)) }
{
    &FIRST_WORDS
}

// All rows of the second.
pub(crate) fn second_rows() -> &'static [u8]
    ensures { result.now ≡ cells (sorted (words_in Second)) }
{
    &SECOND_WORDS
}

// The n bytes from a place on as one number, the first the greatest.
pub(crate) fn bytes_at(bytes: &[u8], p: usize, n: usize) -> u64
    requires { (p + n ≤ length bytes.now) × (n ≤ 8) }
    ensures { result ≡ bytes_from 0 (take n (drop p bytes.now)) }
{
    let mut v: u64 = 0;
    for b in &bytes[p..p + n] {
        v = v * 256 + *b as u64;
    }
    v
}
