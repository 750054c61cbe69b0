// string.h: texts, one word each character, up to a word 0.

pub const STRING: &str = "\
#ifndef STRING_H
#define STRING_H

int strlen(int* s)
{
    int n = 0;
    while (s[n] != 0)
        n++;
    return n;
}

void strcpy(int* to, int* from)
{
    int i = 0;
    while (from[i] != 0)
    {
        to[i] = from[i];
        i++;
    }
    to[i] = 0;
}

void strcat(int* to, int* from)
{
    strcpy(to + strlen(to), from);
}

// the difference of the first words that differ, else 0
int strcmp(int* a, int* b)
{
    int i = 0;
    while (a[i] == b[i] && a[i] != 0)
        i++;
    return a[i] - b[i];
}

#endif
";
